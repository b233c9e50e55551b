// Why there is nothing to be solved.
ghost use Rattle.std.specs.Prelude.{◌≡◌};

use lq_generate_implications::generate::GenerateError;
use lq_refined_instances::QualError;
use std::alloc::AllocError;
use thiserror::Error;

/// Why what is to be solved isn't made.
#[derive(Clone, Copy, Debug, PartialEq, Eq, Error)]
pub enum ProblemError {
    /// There are so many replacements of placeholders, up to 2^64 - 1, which is more than the limit.
    #[error("the program has {0} instances")]
    InstancesPast(u64),
    /// There are so many implications, up to 2^64 - 1, which is more than the limit.
    #[error("the program has {0} implications")]
    ImplicationsPast(u64),
    #[error("out of memory")]
    Memory,
}

impl From<AllocError> for ProblemError {
    ghost use Rattle.lq_generate_problem.specs.declared.error.ProblemError.TheVariants.{Memory};

    ghost from_gives = { λ _ e. e ≡ Memory };

    fn from(_: AllocError) -> ProblemError {
        ProblemError::Memory
    }
}

impl From<QualError> for ProblemError {
    ghost use Rattle.lq_generate_problem.specs.Refusing.{of_instances};

    ghost from_gives = { λ e f. f ≡ of_instances e };

    fn from(e: QualError) -> ProblemError {
        match e {
            QualError::InstancesPast(count) => ProblemError::InstancesPast(count),
            QualError::Memory => ProblemError::Memory,
        }
    }
}

impl From<GenerateError> for ProblemError {
    ghost use Rattle.lq_generate_problem.specs.Refusing.{of_implications};

    ghost from_gives = { λ e f. f ≡ of_implications e };

    fn from(e: GenerateError) -> ProblemError {
        match e {
            GenerateError::ImplicationsPast(count) => ProblemError::ImplicationsPast(count),
            GenerateError::Memory => ProblemError::Memory,
        }
    }
}
