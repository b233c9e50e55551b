// Why a program's implications aren't made.
ghost use Rattle.std.specs.Prelude.{◌≡◌};

use std::alloc::AllocError;
use thiserror::Error;

/// Why a program's implications aren't made.
#[derive(Clone, Copy, Debug, PartialEq, Eq, Error)]
pub enum GenerateError {
    /// There are so many, up to 2^64 - 1, which is more than the limit.
    #[error("the program has {0} implications")]
    ImplicationsPast(u64),
    #[error("out of memory")]
    Memory,
}

impl From<AllocError> for GenerateError {
    ghost use Rattle.lq_generate_implications.specs.declared.generate.error.GenerateError.TheVariants.{Memory};

    ghost from_gives = { λ _ e. e ≡ Memory };

    fn from(_e: AllocError) -> GenerateError {
        GenerateError::Memory
    }
}
