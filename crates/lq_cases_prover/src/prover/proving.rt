// What `valid` answers, checked by the evidence that it gives.
ghost use Rattle.lq_logic_predicates.specs.PredView.{implication_of};
ghost use Rattle.lq_prover_valid.specs.Answers.{IsReadable};

use crate::prover::checking::nodes_of_proof;
use crate::prover::error::{CaseError, given};
use crate::prover::reading::implication_of;
use lq_cases_kit::{push_fraction, push_past, push_pred, refutes};
use lq_logic_points::Point;
use lq_logic_predicates::{Closed, Stop};
use lq_prover_proof_tree::trees::ProofTree;
use lq_prover_valid::{Answer, valid};
use std::alloc::Global;
use std::fmt::Write;

/// How many pivots a check makes where a case doesn't say.
pub(crate) const PIVOTS: u64 = 67_108_864;

/// What is told of an answer.
#[derive(Clone, Copy, PartialEq, Eq)]
enum Told {
    Verdict,
    /// The forms of the tree's nodes.
    Nodes,
    /// The numbers of the terms at the point.
    Numbers,
}

/// Why there is no answer.
pub(crate) fn stopped(alloc: Global, stop: Stop) -> Result<String, CaseError> {
    let mut out = String::new(alloc);
    match stop {
        Stop::Number(past) => push_past(&mut out, &past)?,
        Stop::Gather(pred) => {
            out.push_str("past ")?;
            push_pred(&mut out, &pred)?;
        }
        Stop::Pivots(count) => write!(out, "pivots {count}")?,
        Stop::Memory => return Err(CaseError::Memory),
    }
    Ok(out)
}

fn proved(
    alloc: Global,
    implication: &Closed,
    tree: &ProofTree,
    told: Told,
) -> Result<String, CaseError> {
    match nodes_of_proof(alloc, implication, tree)? {
        Some(nodes) if told == Told::Nodes => Ok(nodes.text(alloc)?),
        Some(_) => Ok(String::from_str(alloc, "valid, checked")?),
        None => Ok(String::from_str(alloc, "valid, but its tree doesn't prove it")?),
    }
}

fn numbers_text(alloc: Global, point: &Point) -> Result<String, CaseError> {
    let mut out = String::new(alloc);
    let values = point.values();
    for at in 0..values.table().len() {
        if at > 0 {
            out.push_str("; ")?;
        }
        push_fraction(&mut out, &values.number(at))?;
    }
    Ok(out)
}

fn failed(
    alloc: Global,
    implication: &Closed,
    point: &Point,
    told: Told,
) -> Result<String, CaseError>
    requires { IsReadable (implication_of implication.now) point.now }
{
    if !refutes(alloc, implication, point)? {
        return Ok(String::from_str(alloc, "fails, but not at the point")?);
    }
    if told == Told::Numbers {
        return numbers_text(alloc, point);
    }
    Ok(String::from_str(alloc, "fails, checked")?)
}

fn answered(
    alloc: Global,
    implication: &Closed,
    limit: u64,
    told: Told,
) -> Result<String, CaseError> {
    match valid(alloc, implication, limit) {
        Ok(Answer::Valid(tree)) => proved(alloc, implication, &tree, told),
        Ok(Answer::Fails(point)) => failed(alloc, implication, &point, told),
        Err(stop) => stopped(alloc, stop),
    }
}

/// Whether an implication is valid.
pub(crate) fn valid_text(alloc: Global, implication: &Closed) -> Result<String, CaseError> {
    answered(alloc, implication, PIVOTS, Told::Verdict)
}

/// Which forms of nodes prove an implication.
pub(crate) fn nodes_text(alloc: Global, implication: &Closed) -> Result<String, CaseError> {
    answered(alloc, implication, PIVOTS, Told::Nodes)
}

/// The numbers at which an implication fails.
pub(crate) fn point_text(alloc: Global, implication: &Closed) -> Result<String, CaseError> {
    answered(alloc, implication, PIVOTS, Told::Numbers)
}

/// Whether an implication is valid, where so many pivots are allowed as the first word says.
pub(crate) fn within_text(alloc: Global, text: &str) -> Result<String, CaseError> {
    let (limit, rest) = given(text.split_once(' '))?;
    let implication = implication_of(alloc, rest)?;
    let limit = given(limit.parse::<u64>().ok())?;
    answered(alloc, &implication, limit, Told::Verdict)
}
