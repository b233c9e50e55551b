// What `goals` answers, checked by the evidence that it gives.
ghost use Rattle.std.specs.Prelude.{◌≤◌, length};
ghost use Rattle.lq_prover_proof_tree.specs.Literals.Gathered.{CanBeGathered};
ghost use Rattle.lq_logic_predicates.specs.PredView.{implication_of, pred_items};

use crate::prover::asking::{Answers, Clash, Outcome, outcome_of};
use crate::prover::checking::nodes_with;
use crate::prover::error::{CaseError, given};
use crate::prover::listing::push_gap;
use crate::prover::opening::opening;
use crate::prover::path::{path_of, take};
use crate::prover::proving::{PIVOTS, stopped};
use crate::prover::reading::goals_of;
use lq_logic_predicates::{Closed, Nnf, Stop, TermTable};
use lq_logic_rows::LinearStop;
use lq_prover_proof_tree::literals::first_past;
use lq_prover_proof_tree::trees::ProofTree;
use std::alloc::Global;

/// Readings of hypotheses and of negated goals, and what they are of.
#[derive(Drop)]
struct Readings<'a> {
    alloc: Global,
    implication: &'a Closed,
    terms: &'a TermTable,
    hypotheses: &'a [Nnf],
    goals: &'a [Nnf],
}

impl<'a> Readings<'a> {
    /// Tells by a word of a tree, and whether it proves so many of the hypotheses and one more reading.
    fn tell(
        &self,
        word: &str,
        tree: &ProofTree,
        count: usize,
        reading: &'a Nnf,
        out: &mut String,
    ) -> Result<(), CaseError> {
        let mut path = path_of(self.alloc, self.hypotheses, count)?;
        take(reading, &mut path)?;
        out.push_str(word)?;
        if nodes_with(self.alloc, self.implication, tree, path, self.terms)?.is_none() {
            out.push_str(", but its tree doesn't prove it")?;
        }
        Ok(())
    }

    fn tell_clash(&self, clash: &Clash, out: &mut String) -> Result<(), CaseError> {
        let reading = given(self.hypotheses.get(clash.before))?;
        self.tell("clash", &clash.tree, clash.before, reading, out)
    }

    /// A word for each goal that was asked, and behind them the stop, where one came.
    fn tell_answers(&self, answers: &Answers, out: &mut String) -> Result<(), CaseError> {
        for (goal, tree) in self.goals.iter().zip(answers.trees.iter()) {
            push_gap(out)?;
            match tree {
                Some(tree) => self.tell("proved", tree, self.hypotheses.len(), goal, out)?,
                None => out.push_str("open")?,
            }
        }
        if let Some(stop) = answers.stop {
            push_gap(out)?;
            let text = stopped(self.alloc, stop_of(stop))?;
            out.push_str(text.as_str())?;
        }
        Ok(())
    }
}

/// The stop of an engine as that of a proof.
fn stop_of(stop: LinearStop) -> Stop {
    match stop {
        LinearStop::Number(past) => Stop::Number(past),
        LinearStop::Pivots(count) => Stop::Pivots(count),
        LinearStop::Memory => Stop::Memory,
    }
}

/// What comes of so many hypotheses and of the goals behind them, each literal of which can be gathered.
fn gathered(alloc: Global, implication: &Closed, count: usize) -> Result<String, CaseError>
    requires gathers { CanBeGathered (implication_of implication.now) }
    requires count { count ≤ length (pred_items implication.now.hypotheses) }
{
    let terms = implication.terms(alloc)?;
    let readings = opening(alloc, implication)?;
    let (hypotheses, goals) = readings.as_slice().split_at(count);
    let outcome = outcome_of(alloc, implication, &terms, hypotheses, goals, PIVOTS)?;
    let asked = Readings {
        alloc,
        implication,
        terms: &terms,
        hypotheses,
        goals,
    };
    let mut out = String::new(alloc);
    match outcome {
        Outcome::Clash(clash) => asked.tell_clash(&clash, &mut out)?,
        Outcome::Answers(answers) => asked.tell_answers(&answers, &mut out)?,
    }
    Ok(out)
}

/// What comes of as many hypotheses as the first word says, and of the goals behind them.
pub(crate) fn goals_text(alloc: Global, text: &str) -> Result<String, CaseError> {
    let (count, rest) = given(text.split_once(' '))?;
    let count = given(count.parse::<usize>().ok())?;
    let implication = goals_of(alloc, rest, count)?;
    if implication.hypotheses.len() < count {
        return Err(CaseError::NotACase);
    }
    match first_past(alloc, &implication)? {
        Some(pred) => stopped(alloc, Stop::Gather(pred)),
        None => gathered(alloc, &implication, count),
    }
}
