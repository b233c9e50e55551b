// A case and its answer.
use crate::engines::error::CaseError;
use crate::engines::fractions::{operated, operation, ordered, parted};
use crate::engines::points::pointed;
use crate::engines::predicates::{gathered, numbered, read};
use crate::engines::printing::push_past;
use crate::engines::systems::{asked_again, generated, limited, multiplied, solved, valued};
use crate::engines::words::{plain, words_of};
use lq_base_numbers::fractions::NumberPast;
use std::alloc::{AllocError, Global};

/// The answer of a case of rows.
fn by_rows(alloc: Global, kind: &str, rest: &[&str]) -> Result<String, CaseError> {
    match kind {
        "system" => solved(alloc, rest),
        "pivots" => limited(alloc, rest),
        "values" => valued(alloc, rest),
        "multipliers" => multiplied(alloc, rest),
        "again" => asked_again(alloc, rest),
        "generated" => generated(alloc, rest),
        _ => Err(CaseError::NotACase),
    }
}

/// The answer of the kind of case that the first word names.
fn by_kind(alloc: Global, text: &str, words: &[&str]) -> Result<String, CaseError> {
    let Some((kind, rest)) = words.split_first() else {
        return Err(CaseError::NotACase);
    };
    if let Some(op) = operation(kind) {
        return operated(alloc, op, words);
    }
    match *kind {
        "order" => ordered(alloc, words),
        "parts" => parted(alloc, words),
        "read" => read(alloc, rest),
        "gather" => gathered(alloc, rest),
        "terms" => numbered(alloc, rest),
        "point" => pointed(alloc, text),
        _ => by_rows(alloc, kind, rest),
    }
}

fn found(alloc: Global, line: &str) -> Result<String, CaseError> {
    let text = plain(alloc, line)?;
    let words = words_of(alloc, text.as_str())?;
    by_kind(alloc, text.as_str(), words.as_slice())
}

fn past_text(alloc: Global, past: &NumberPast) -> Result<String, AllocError> {
    let mut out = String::new(alloc);
    push_past(&mut out, past)?;
    Ok(out)
}

/// What is said of a line that has no answer.
fn unanswered(alloc: Global, error: CaseError) -> Result<String, AllocError> {
    match error {
        CaseError::NotACase => String::from_str(alloc, "not a case"),
        CaseError::Ungathered => String::from_str(alloc, "can't be gathered"),
        CaseError::Past(past) => past_text(alloc, &past),
        CaseError::Stop(_) => String::from_str(alloc, "stopped"),
        CaseError::Memory => Err(AllocError),
    }
}

/// The answer of a case.
pub(crate) fn answer(alloc: Global, line: &str) -> Result<String, AllocError> {
    match found(alloc, line) {
        Ok(answer) => Ok(answer),
        Err(error) => unanswered(alloc, error),
    }
}
