// A case and its answer.
use crate::solutions::answer::solved_text;
use crate::solutions::error::{CaseError, given};
use crate::solutions::reading::problem_of;
use lq_cases_kit::push_past;
use std::alloc::{AllocError, Global};
use std::fmt::Write;

/// How many pivots a check makes where a case doesn't say.
const PIVOTS: u64 = 67_108_864;

fn found(alloc: Global, line: &str) -> Result<String, CaseError> {
    let (kind, rest) = given(line.split_once(' '))?;
    let (limit, text) = match kind {
        "solve" => (PIVOTS, rest),
        "within" => {
            let (limit, text) = given(rest.split_once(' '))?;
            (given(limit.parse::<u64>().ok())?, text)
        }
        _ => return Err(CaseError::NotACase),
    };
    let problem = problem_of(alloc, text)?;
    solved_text(alloc, &problem, limit)
}

/// The answer of a case.
pub(crate) fn case_answer(alloc: Global, line: &str) -> Result<String, AllocError> {
    match found(alloc, line) {
        Ok(answer) => Ok(answer),
        Err(CaseError::NotACase) => String::from_str(alloc, "not a case"),
        Err(CaseError::Instances(count)) => format!(in alloc; "{count} instances"),
        Err(CaseError::Ungathered) => String::from_str(alloc, "a row of the check is past"),
        Err(CaseError::Past(past)) => {
            let mut out = String::from_str(alloc, "the check is past: ")?;
            push_past(&mut out, &past)?;
            Ok(out)
        }
        Err(CaseError::Memory) => Err(AllocError),
    }
}
