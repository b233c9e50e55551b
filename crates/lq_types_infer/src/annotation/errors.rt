// Why a program has no types.
ghost use Rattle.std.specs.Prelude.{◌≡◌};
ghost use Rattle.lq_types_infer.specs.Annotation.Errors.{refusal_of};
ghost use Rattle.lq_types_infer.specs.declared.annotation.errors.TypeError.TheVariants.{Memory};

use crate::inference::SolveError;
use lq_base_names::Place;
use std::alloc::AllocError;
use thiserror::Error;

/// Why a program has no annotation.
#[derive(Clone, Copy, Debug, PartialEq, Eq, Error)]
pub enum TypeError {
    /// The rules up to this place can't hold together.
    #[error("the program is ill typed")]
    IllTyped(Place),
    /// The definition of this name is no value, and its type has a variable.
    #[error("a definition that is no value has a variable in its type")]
    WeakType(Place),
    /// More than 2,000 types stand in that of the node at this place: so many, up to 2^64 - 1.
    #[error("a type is too large")]
    TypePast(Place, u64),
    #[error("out of memory")]
    Memory,
}

impl From<AllocError> for TypeError {
    ghost from_gives = { λ _ e. e ≡ Memory };

    fn from(_: AllocError) -> Self {
        TypeError::Memory
    }
}

impl From<SolveError> for TypeError {
    ghost from_gives = { λ s e. e ≡ refusal_of s };

    fn from(error: SolveError) -> Self {
        match error {
            SolveError::IllTyped(place) => TypeError::IllTyped(place),
            SolveError::Memory => TypeError::Memory,
        }
    }
}
