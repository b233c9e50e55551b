// Why a comparison isn't gathered.
ghost use Rattle.std.specs.Prelude.{◌≡◌};
ghost use Rattle.lq_logic_predicates.specs.declared.error.GatherError.TheVariants.{Memory};

use std::alloc::{AllocError, AllocFailed};
use thiserror::Error;

/// Why a comparison wasn't gathered.
#[derive(Clone, Copy, Debug, PartialEq, Eq, Error)]
pub enum GatherError {
    /// A coefficient or a constant is past 128 bits.
    #[error("a number past 128 bits")]
    Past,
    #[error("out of memory")]
    Memory,
}

impl From<AllocError> for GatherError {
    ghost from_gives = { λ _ e. e ≡ Memory };

    fn from(_e: AllocError) -> GatherError {
        GatherError::Memory
    }
}

impl<T: Drop> From<AllocFailed<T>> for GatherError {
    ghost from_gives = { λ _ e. e ≡ Memory };

    fn from(_e: AllocFailed<T>) -> GatherError {
        GatherError::Memory
    }
}
