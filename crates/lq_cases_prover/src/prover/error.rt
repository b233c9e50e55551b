// Why a line has no answer.
use lq_base_numbers::fractions::NumberPast;
use lq_cases_kit::{CheckError, WordError};
use lq_logic_predicates::GatherError;
use std::alloc::{AllocError, AllocFailed};

/// Why a line has no answer.
#[derive(Clone, Copy)]
pub(crate) enum CaseError {
    /// The line isn't a case.
    NotACase,
    /// A row can't be gathered that a check asks for.
    Ungathered,
    /// An operation by which an answer is checked is past 128 bits.
    Past(NumberPast),
    /// There is no memory.
    Memory,
}

impl From<AllocError> for CaseError {
    fn from(_e: AllocError) -> CaseError {
        CaseError::Memory
    }
}

impl<T: Drop> From<AllocFailed<T>> for CaseError {
    fn from(_e: AllocFailed<T>) -> CaseError {
        CaseError::Memory
    }
}

impl From<GatherError> for CaseError {
    fn from(e: GatherError) -> CaseError {
        match e {
            GatherError::Past => CaseError::Ungathered,
            GatherError::Memory => CaseError::Memory,
        }
    }
}

impl From<NumberPast> for CaseError {
    fn from(past: NumberPast) -> CaseError {
        CaseError::Past(past)
    }
}

impl From<WordError> for CaseError {
    fn from(e: WordError) -> CaseError {
        match e {
            WordError::Misplaced => CaseError::NotACase,
            WordError::Memory => CaseError::Memory,
        }
    }
}

impl From<CheckError> for CaseError {
    fn from(e: CheckError) -> CaseError {
        match e {
            CheckError::Ungathered => CaseError::Ungathered,
            CheckError::Memory => CaseError::Memory,
        }
    }
}

/// What is there, or else the line isn't a case.
pub(crate) fn given<T>(found: Option<T>) -> Result<T, CaseError> {
    match found {
        Some(x) => Ok(x),
        None => Err(CaseError::NotACase),
    }
}
