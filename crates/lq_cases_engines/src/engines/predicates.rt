// Cases of predicates: `read PREDICATE`, `gather <= ADDED LEFT RIGHT`, `terms HYPOTHESIS .. GOAL`.
use crate::engines::error::{CaseError, given};
use crate::engines::numbers::whole;
use crate::engines::parsing::Stacks;
use crate::engines::printing::{push_reading, push_row, push_term};
use lq_logic_predicates::{
    Closed, GatherError, Nnf, Pred, Preds, Term, TermTable, gather, tighten,
};
use std::alloc::{AllocError, Global};

fn reading_text(alloc: Global, nnf: &Nnf) -> Result<String, AllocError> {
    let mut out = String::new(alloc);
    push_reading(&mut out, nnf)?;
    Ok(out)
}

/// The tightened reading of a predicate, over a table of its own.
fn tightened(alloc: Global, pred: &Pred) -> Result<String, GatherError> {
    let mut table = TermTable::new(alloc)?;
    let nnf = tighten(alloc, pred, true, &mut table)?;
    Ok(reading_text(alloc, &nnf)?)
}

fn copy_tightened(alloc: Global, pred: &Pred) -> Result<String, GatherError> {
    let copy = pred.copy(alloc)?;
    tightened(alloc, &copy)
}

/// The tightened reading of a copy of the predicate, over a table of its own.
pub(crate) fn read(alloc: Global, words: &[&str]) -> Result<String, CaseError> {
    let mut stacks = Stacks::new(alloc);
    stacks.take_all(words)?;
    let pred = given(stacks.only_pred())?;
    Ok(copy_tightened(alloc, pred)?)
}

/// The row of a comparison, over a table of its own.
fn row_text(
    alloc: Global,
    left: &Term,
    right: &Term,
    added: i128,
    equal: bool,
) -> Result<String, GatherError> {
    let mut table = TermTable::new(alloc)?;
    let row = gather(alloc, left, right, added, equal, &mut table)?;
    let mut out = String::new(alloc);
    push_row(&mut out, &row)?;
    Ok(out)
}

/// The row of a comparison of two terms: `<= ADDED LEFT RIGHT`.
pub(crate) fn gathered(alloc: Global, words: &[&str]) -> Result<String, CaseError> {
    let equal = match *given(words.first())? {
        "=" => true,
        "<=" => false,
        _ => return Err(CaseError::NotACase),
    };
    let added = given(whole(given(words.get(1))?))?;
    let mut stacks = Stacks::new(alloc);
    stacks.take_all(given(words.get(2..))?)?;
    let (left, right) = given(stacks.only_terms())?;
    Ok(row_text(alloc, left, right, added, equal)?)
}

/// The implication of predicates that stand in a row with the first one last: its goal is the last one.
fn implication_of(alloc: Global, mut preds: Vec<Pred>) -> Result<Closed, CaseError> {
    let mut hypotheses = Preds::new(alloc)?;
    let mut goal = given(preds.pop())?;
    while let Some(next) = preds.pop() {
        hypotheses.push(goal)?;
        goal = next;
    }
    Ok(Closed { hypotheses, goal })
}

/// The terms in the order of their numbers.
fn terms_text(alloc: Global, table: &TermTable) -> Result<String, AllocError> {
    let mut out = String::new(alloc);
    for at in 0..table.len() {
        if at > 0 {
            out.push_str(" ")?;
        }
        push_term(&mut out, table.term(at))?;
    }
    Ok(out)
}

fn numbered_text(alloc: Global, implication: &Closed) -> Result<String, AllocError> {
    let table = implication.terms(alloc)?;
    terms_text(alloc, &table)
}

/// The terms of an implication, of whose hypotheses a copy is taken.
fn copy_numbered(alloc: Global, implication: Closed) -> Result<String, AllocError> {
    let copy = implication.hypotheses.copy(alloc)?;
    let copied = Closed {
        hypotheses: copy,
        goal: implication.goal,
    };
    numbered_text(alloc, &copied)
}

/// The terms of the implication whose goal is the last predicate of the words.
pub(crate) fn numbered(alloc: Global, words: &[&str]) -> Result<String, CaseError> {
    let mut stacks = Stacks::new(alloc);
    stacks.take_all(words)?;
    let implication = implication_of(alloc, stacks.into_preds()?)?;
    Ok(copy_numbered(alloc, implication)?)
}
