// A case and its answer.
use crate::decide::deciding::case_text;
use crate::decide::error::{CaseError, given};
use lq_cases_kit::{push_past, push_pred};
use std::alloc::{AllocError, Global};

/// How many pivots a check makes where a case doesn't say.
const PIVOTS: u64 = 67_108_864;

// The answer of the kind of case that the first word names.
fn found(alloc: Global, line: &str) -> Result<String, CaseError> {
    let (kind, rest) = given(line.split_once(' '))?;
    match kind {
        "case" => case_text(alloc, rest, PIVOTS),
        "within" => {
            let (limit, rest) = given(rest.split_once(' '))?;
            let limit = given(limit.parse::<u64>().ok())?;
            case_text(alloc, rest, limit)
        }
        _ => Err(CaseError::NotACase),
    }
}

/// The answer of a case.
pub(crate) fn answer(alloc: Global, line: &str) -> Result<String, AllocError> {
    match found(alloc, line) {
        Ok(answer) => Ok(answer),
        Err(CaseError::NotACase) => String::from_str(alloc, "not a case"),
        Err(CaseError::Ungathered(pred)) => {
            let mut out = String::from_str(alloc, "past ")?;
            push_pred(&mut out, &pred)?;
            Ok(out)
        }
        Err(CaseError::Past(past)) => {
            let mut out = String::from_str(alloc, "the check is past: ")?;
            push_past(&mut out, &past)?;
            Ok(out)
        }
        Err(CaseError::Memory) => Err(AllocError),
    }
}
