// Why a line has no answer.
use lq_base_numbers::fractions::NumberPast;
use lq_logic_predicates::GatherError;
use lq_logic_rows::LinearStop;
use std::alloc::{AllocError, AllocFailed};

/// Why a line has no answer.
#[derive(Clone, Copy)]
pub(crate) enum CaseError {
    /// The line isn't a case.
    NotACase,
    /// A comparison can't be gathered.
    Ungathered,
    /// An operation on two fractions has no form of 128 bits.
    Past(NumberPast),
    /// An engine stopped.
    Stop(LinearStop),
    /// There is no memory.
    Memory,
}

impl From<AllocError> for CaseError {
    fn from(_e: AllocError) -> CaseError {
        CaseError::Memory
    }
}

impl<T: Drop> From<AllocFailed<T>> for CaseError {
    fn from(_e: AllocFailed<T>) -> CaseError {
        CaseError::Memory
    }
}

impl From<GatherError> for CaseError {
    fn from(e: GatherError) -> CaseError {
        match e {
            GatherError::Past => CaseError::Ungathered,
            GatherError::Memory => CaseError::Memory,
        }
    }
}

impl From<NumberPast> for CaseError {
    fn from(past: NumberPast) -> CaseError {
        CaseError::Past(past)
    }
}

impl From<LinearStop> for CaseError {
    fn from(stop: LinearStop) -> CaseError {
        CaseError::Stop(stop)
    }
}

/// What is there, or else the line isn't a case.
pub(crate) fn given<T>(found: Option<T>) -> Result<T, CaseError> {
    match found {
        Some(x) => Ok(x),
        None => Err(CaseError::NotACase),
    }
}
