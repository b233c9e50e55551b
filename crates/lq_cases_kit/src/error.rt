// Why words aren't read, and why nothing is told of a point.
use lq_logic_predicates::GatherError;
use std::alloc::{AllocError, AllocFailed};
use thiserror::Error;

/// Why a word isn't taken.
#[derive(Clone, Copy, Debug, PartialEq, Eq, Error)]
pub enum WordError {
    /// It is no word of a term or a predicate, or stands behind too few others.
    #[error("no word of a term or a predicate stands here")]
    Misplaced,
    #[error("out of memory")]
    Memory,
}

impl From<AllocError> for WordError {
    fn from(_e: AllocError) -> WordError {
        WordError::Memory
    }
}

impl<T: Drop> From<AllocFailed<T>> for WordError {
    fn from(_e: AllocFailed<T>) -> WordError {
        WordError::Memory
    }
}

/// Why nothing is told of a point.
#[derive(Clone, Copy, Debug, PartialEq, Eq, Error)]
pub enum CheckError {
    /// A literal of the implication can't be gathered.
    #[error("a row can't be gathered in 128 bits")]
    Ungathered,
    #[error("out of memory")]
    Memory,
}

impl From<AllocError> for CheckError {
    fn from(_e: AllocError) -> CheckError {
        CheckError::Memory
    }
}

impl<T: Drop> From<AllocFailed<T>> for CheckError {
    fn from(_e: AllocFailed<T>) -> CheckError {
        CheckError::Memory
    }
}

impl From<GatherError> for CheckError {
    fn from(e: GatherError) -> CheckError {
        match e {
            GatherError::Past => CheckError::Ungathered,
            GatherError::Memory => CheckError::Memory,
        }
    }
}
