// What `decide` answers, checked by the evidence that it gives.
ghost use Rattle.std.specs.Prelude.{All};
ghost use Rattle.lq_prover_decide.specs.CaseView.{case_of};
ghost use Rattle.lq_prover_decide.specs.Deciding.{Fits, PairsAreDecided};
ghost use Rattle.lq_prover_proof_tree.specs.Literals.Gathered.{CanBeGathered};
ghost use Rattle.lq_logic_predicates.specs.Comparison.{CanGather};
ghost use Rattle.lq_logic_predicates.specs.Literals.{implication_literals};
ghost use Rattle.lq_logic_predicates.specs.PredView.{implication_of as closed_of};

use crate::decide::error::CaseError;
use crate::decide::meeting::is_met;
use crate::decide::pairs::are_alone;
use crate::decide::reading::{implication_of, literals_of};
use crate::decide::refuting::{is_refuted, push_forms};
use lq_cases_kit::{push_past, push_pred};
use lq_logic_predicates::{Closed, Stop};
use lq_prover_decide::{CaseAnswer, Literals, decide};
use lq_prover_proof_tree::literals::first_past;
use lq_prover_proof_tree::trees::ProofTree;
use std::alloc::Global;
use std::fmt::Write;

fn stopped(alloc: Global, stop: Stop) -> Result<String, CaseError> {
    let mut out = String::new(alloc);
    match stop {
        Stop::Number(past) => push_past(&mut out, &past)?,
        Stop::Gather(pred) => {
            out.push_str("past ")?;
            push_pred(&mut out, &pred)?;
        }
        Stop::Pivots(count) => write!(out, "pivots {count}")?,
        Stop::Memory => return Err(CaseError::Memory),
    }
    Ok(out)
}

fn refuted(alloc: Global, literals: &Literals, tree: &ProofTree) -> Result<String, CaseError> {
    if !is_refuted(alloc, literals, tree)? {
        return Ok(String::from_str(alloc, "no point, but its tree doesn't prove it")?);
    }
    let mut out = String::from_str(alloc, "no point by ")?;
    push_forms(&mut out, tree)?;
    out.push_str(", checked")?;
    Ok(out)
}

fn decided(alloc: Global, literals: &Literals, limit: u64) -> Result<String, CaseError>
    requires gathers { All CanGather (implication_literals (case_of literals.now).implication) }
    requires fits { Fits (case_of literals.now) }
    requires pairs { PairsAreDecided (case_of literals.now) }
{
    match decide(alloc, literals, limit) {
        Ok(CaseAnswer::NoPoint(tree)) => refuted(alloc, literals, &tree),
        Ok(CaseAnswer::Has(point)) => {
            if is_met(literals, &point)? {
                Ok(String::from_str(alloc, "has a point, checked")?)
            } else {
                Ok(String::from_str(alloc, "has a point, but not this one")?)
            }
        }
        Err(stop) => stopped(alloc, stop),
    }
}

/// The answer of the case of an implication, each literal of which can be gathered.
fn gathered(alloc: Global, implication: Closed, limit: u64) -> Result<String, CaseError>
    requires { CanBeGathered (closed_of implication) }
{
    let mut table = implication.terms(alloc)?;
    if !are_alone(&table) {
        return Err(CaseError::NotACase);
    }
    let facts = literals_of(alloc, &implication, &mut table)?;
    let literals = Literals::new(facts, table, implication);
    decided(alloc, &literals, limit)
}

/// The answer of the case of a text. A check makes at most `limit` pivots.
pub(crate) fn case_text(alloc: Global, text: &str, limit: u64) -> Result<String, CaseError> {
    let implication = implication_of(alloc, text)?;
    match first_past(alloc, &implication)? {
        Some(pred) => Err(CaseError::Ungathered(pred)),
        None => gathered(alloc, implication, limit),
    }
}
