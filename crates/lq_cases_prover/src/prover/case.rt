// A case and its answer.
use crate::prover::error::CaseError;
use crate::prover::goals::goals_text;
use crate::prover::listing::{listed, push_gap};
use crate::prover::proving::{nodes_text, point_text, valid_text, within_text};
use crate::prover::reading::implication_of;
use lq_cases_kit::{push_past, push_pred, push_symbol, push_term};
use lq_logic_predicates::Closed;
use lq_prover_proof_tree::literals::{applications, copy_implication, first_past, flags, objects};
use std::alloc::{AllocError, Global};

fn past_text(alloc: Global, implication: &Closed) -> Result<String, AllocError> {
    let mut out = String::new(alloc);
    match first_past(alloc, implication)? {
        Some(pred) => push_pred(&mut out, &pred)?,
        None => out.push_str("none")?,
    }
    Ok(out)
}

fn flags_text(alloc: Global, implication: &Closed) -> Result<String, AllocError> {
    let mut out = String::new(alloc);
    let found = flags(alloc, implication)?;
    for symbol in found.iter() {
        push_gap(&mut out)?;
        push_symbol(&mut out, *symbol)?;
    }
    listed(alloc, out)
}

fn objects_text(alloc: Global, implication: &Closed) -> Result<String, AllocError> {
    let mut out = String::new(alloc);
    let found = objects(alloc, implication)?;
    for object in found.iter() {
        push_gap(&mut out)?;
        push_term(&mut out, object)?;
    }
    listed(alloc, out)
}

fn applications_text(alloc: Global, implication: &Closed) -> Result<String, AllocError> {
    let mut out = String::new(alloc);
    let terms = implication.terms(alloc)?;
    for number in &applications(alloc, &terms)? {
        if *number < terms.len() {
            push_gap(&mut out)?;
            push_term(&mut out, terms.term(*number))?;
        }
    }
    listed(alloc, out)
}

// The answer of the kind of case that a word names.
fn by_kind(alloc: Global, kind: &str, implication: &Closed) -> Result<String, CaseError> {
    match kind {
        "past" => Ok(past_text(alloc, implication)?),
        "flags" => Ok(flags_text(alloc, implication)?),
        "objects" => Ok(objects_text(alloc, implication)?),
        "applications" => Ok(applications_text(alloc, implication)?),
        "valid" => valid_text(alloc, implication),
        "nodes" => nodes_text(alloc, implication),
        "point" => point_text(alloc, implication),
        _ => Err(CaseError::NotACase),
    }
}

fn found(alloc: Global, line: &str) -> Result<String, CaseError> {
    let Some((kind, rest)) = line.split_once(' ') else {
        return Err(CaseError::NotACase);
    };
    match kind {
        "within" => return within_text(alloc, rest),
        "goals" => return goals_text(alloc, rest),
        _ => {}
    }
    let implication = implication_of(alloc, rest)?;
    let copied = copy_implication(alloc, &implication)?;
    by_kind(alloc, kind, &copied)
}

/// The answer of a case.
pub(crate) fn answer(alloc: Global, line: &str) -> Result<String, AllocError> {
    match found(alloc, line) {
        Ok(answer) => Ok(answer),
        Err(CaseError::NotACase) => String::from_str(alloc, "not a case"),
        Err(CaseError::Ungathered) => String::from_str(alloc, "a row of the tree is past"),
        Err(CaseError::Past(past)) => {
            let mut out = String::from_str(alloc, "the check is past: ")?;
            push_past(&mut out, &past)?;
            Ok(out)
        }
        Err(CaseError::Memory) => Err(AllocError),
    }
}
