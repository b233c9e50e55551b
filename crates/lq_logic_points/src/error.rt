// Why a point isn't made.
ghost use Rattle.std.specs.Prelude.{◌≡◌};
ghost use Rattle.lq_logic_points.specs.declared.error.PointError.TheVariants.{Past, Memory};

use lq_base_numbers::fractions::NumberPast;
use std::alloc::{AllocError, AllocFailed};
use thiserror::Error;

/// Why no point was made.
#[derive(Clone, Copy, Debug, PartialEq, Eq, Error)]
pub enum PointError {
    /// An operation by which a row is evaluated has no form of 128 bits.
    #[error("{0}")]
    Past(NumberPast),
    #[error("out of memory")]
    Memory,
}

impl From<NumberPast> for PointError {
    ghost from_gives = { λ n e. e ≡ Past n };

    fn from(past: NumberPast) -> PointError {
        PointError::Past(past)
    }
}

impl From<AllocError> for PointError {
    ghost from_gives = { λ _ e. e ≡ Memory };

    fn from(_e: AllocError) -> PointError {
        PointError::Memory
    }
}

impl<T: Drop> From<AllocFailed<T>> for PointError {
    ghost from_gives = { λ _ e. e ≡ Memory };

    fn from(_e: AllocFailed<T>) -> PointError {
        PointError::Memory
    }
}
