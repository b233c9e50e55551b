// Why a check finds no verdict.
use lq_base_numbers::fractions::NumberPast;
use std::alloc::{AllocError, AllocFailed};

/// Why no verdict was found.
#[derive(Drop)]
pub(crate) enum TableauError {
    Past(NumberPast),
    Spent,
    Memory,
}

impl From<NumberPast> for TableauError {
    ghost use Rattle.lq_prover_simplex.specs.declared.error.TableauError.TheVariants.{Past};
    ghost use Rattle.std.specs.Prelude.{◌≡◌};

    ghost from_gives = { λ past stop. stop ≡ Past past };

    fn from(past: NumberPast) -> TableauError {
        TableauError::Past(past)
    }
}

impl From<AllocError> for TableauError {
    ghost use Rattle.lq_prover_simplex.specs.declared.error.TableauError.TheVariants.{Memory};
    ghost use Rattle.std.specs.Prelude.{◌≡◌};

    ghost from_gives = { λ _ stop. stop ≡ Memory };

    fn from(_error: AllocError) -> TableauError {
        TableauError::Memory
    }
}

impl<T: Drop> From<AllocFailed<T>> for TableauError {
    ghost use Rattle.lq_prover_simplex.specs.declared.error.TableauError.TheVariants.{Memory};
    ghost use Rattle.std.specs.Prelude.{◌≡◌};

    ghost from_gives = { λ _ stop. stop ≡ Memory };

    fn from(_error: AllocFailed<T>) -> TableauError {
        TableauError::Memory
    }
}
