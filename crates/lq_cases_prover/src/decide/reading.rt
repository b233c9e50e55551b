// Cases as lines write them: predicates, each operator behind its arguments, and the literals that they are read as.
ghost use Rattle.std.specs.Prelude.{◌≡◌, ℕ, IfOk, OnOk, length};
ghost use Rattle.lq_prover_decide.specs.Case.{facts_of};
ghost use Rattle.lq_prover_decide.specs.Deciding.{AllFactsBelow};
ghost use Rattle.lq_cases_prover.specs.Decide.Reading.{AreRowsBelow, IsRowBelow};
ghost use Rattle.lq_logic_predicates.specs.ClosedImplication.{terms_in};
ghost use Rattle.lq_logic_predicates.specs.NnfView.{nnf_view, nnfs_view};
ghost use Rattle.lq_logic_predicates.specs.PredView.{formula_of, implication_of as closed_of};
ghost use Rattle.lq_logic_predicates.specs.Reading.{formula_numbered};
ghost use Rattle.lq_logic_predicates.specs.TableView.{terms_of};

use crate::decide::error::CaseError;
use lq_cases_kit::Stacks;
use lq_logic_predicates::{
    Closed, GatherError, Nnf, Nnfs, Pred, Preds, TermTable, rows_say_what_comparisons_say, tighten,
};
use lq_prover_decide::{Fact, Facts};
use lq_prover_proof_tree::literals::copy_row;
use std::alloc::Global;

/// The implication of a text: the predicates but for the last one are its hypotheses in order, and the last one is its goal.
pub(crate) fn implication_of(alloc: Global, text: &str) -> Result<Closed, CaseError> {
    let mut stacks = Stacks::new(alloc);
    for word in text.split_whitespace() {
        stacks.take(word)?;
    }
    if !stacks.terms.is_empty() {
        return Err(CaseError::NotACase);
    }
    let goal = stacks.pred()?;
    let mut hypotheses = Preds::new(alloc)?;
    for pred in stacks.preds {
        hypotheses.push(pred)?;
    }
    Ok(Closed { hypotheses, goal })
}

/// Adds the literals of a reading. One that isn't literals alone is none of a case.
#[cycle(take)]
fn take(alloc: Global, reading: &Nnf, facts: &mut Facts) -> Result<(), CaseError>
    ensures { OnOk result ((n : ℕ) → AllFactsBelow n (facts_of facts.old) → IsRowBelow n (nnf_view reading.now)
        → AllFactsBelow n (facts_of facts.new)) }
{
    let fact = match reading {
        Nnf::All(readings) => return take_all(alloc, readings, facts),
        Nnf::Row(row) => Fact::Row(copy_row(alloc, row)?),
        Nnf::Flag(flag, value) => Fact::Flag(*flag, *value),
        Nnf::Same(left, right, one) => Fact::Same(left.copy(alloc)?, right.copy(alloc)?, *one),
        Nnf::Yes | Nnf::No | Nnf::Any(_) => return Err(CaseError::NotACase),
    };
    facts.push(fact)?;
    Ok(())
}

#[cycle(take)]
fn take_all(alloc: Global, readings: &Nnfs, facts: &mut Facts) -> Result<(), CaseError>
    ensures { OnOk result ((n : ℕ) → AllFactsBelow n (facts_of facts.old)
        → AreRowsBelow n (nnfs_view readings.now) → AllFactsBelow n (facts_of facts.new)) }
{
    for reading in readings.as_slice() {
        take(alloc, reading, facts)?;
    }
    Ok(())
}

/// Adds the literals of a predicate, whose terms the table has.
fn add_literals(
    alloc: Global,
    pred: &Pred,
    table: &mut TermTable,
    facts: &mut Facts,
) -> Result<(), CaseError>
    requires numbered { formula_numbered (terms_of table.old) (formula_of pred.now) ≡ terms_of table.old }
    requires below { AllFactsBelow (length (terms_of table.old)) (facts_of facts.old) }
    ensures same { OnOk result (terms_of table.new ≡ terms_of table.old) }
    ensures below { OnOk result (AllFactsBelow (length (terms_of table.old)) (facts_of facts.new)) }
{
    rows_say_what_comparisons_say();
    match tighten(alloc, pred, true, table) {
        Ok(reading) => take(alloc, &reading, facts),
        Err(GatherError::Past) => Err(CaseError::Ungathered(pred.copy(alloc)?)),
        Err(GatherError::Memory) => Err(CaseError::Memory),
    }
}

/// The literals of the hypotheses and of the goal, each as it stands, in order. The table has the terms of the implication, and their rows
/// are over these.
pub(crate) fn literals_of(
    alloc: Global,
    implication: &Closed,
    table: &mut TermTable,
) -> Result<Facts, CaseError>
    requires { terms_of table.old ≡ terms_in (closed_of implication.now) }
    ensures same { OnOk result (terms_of table.new ≡ terms_of table.old) }
    ensures below { IfOk result (λ facts. AllFactsBelow (length (terms_of table.old)) (facts_of facts)) }
{
    let mut facts = Facts::new(alloc)?;
    for pred in implication.hypotheses.as_slice() {
        add_literals(alloc, pred, table, &mut facts)?;
    }
    add_literals(alloc, &implication.goal, table, &mut facts)?;
    Ok(facts)
}
