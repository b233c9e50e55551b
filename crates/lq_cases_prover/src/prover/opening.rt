// The readings of an implication.
ghost use Rattle.std.specs.Prelude.{◌≡◌, ◌+◌, IfOk, OnOk, length};
ghost use Rattle.lq_logic_predicates.specs.NnfView.{nnf_items, nnf_view};
ghost use Rattle.lq_logic_predicates.specs.PredView.{formula_of, implication_of, pred_items};
ghost use Rattle.lq_logic_predicates.specs.Reading.{Gathers, formula_numbered, reading_of};
ghost use Rattle.lq_logic_predicates.specs.TableView.{terms_of};
ghost use Rattle.lq_cases_prover.specs.Prover.Speaking.{SpeakOf};

use crate::prover::error::CaseError;
use lq_logic_predicates::{
    Closed, Nnf, Nnfs, Pred, TermTable, rows_say_what_comparisons_say, tighten,
};
use std::alloc::Global;

/// The reading of a predicate, or of its negation, whose terms the table has.
fn read(alloc: Global, pred: &Pred, positive: bool, table: &mut TermTable) -> Result<Nnf, CaseError>
    requires { formula_numbered (terms_of table.old) (formula_of pred.now) ≡ terms_of table.old }
    ensures same { OnOk result (terms_of table.new ≡ terms_of table.old) }
    ensures reading { IfOk result (λ reading. Gathers (terms_of table.old) (reading_of positive (formula_of pred.now))
        (nnf_view reading)) }
{
    Ok(tighten(alloc, pred, positive, table)?)
}

/// The readings of the hypotheses in order, and then that of the negated goal.
pub(crate) fn opening(alloc: Global, implication: &Closed) -> Result<Nnfs, CaseError>
    ensures count { IfOk result (λ readings. length (nnf_items readings) ≡ length (pred_items implication.now.hypotheses) + 1) }
    ensures speak { IfOk result (λ readings. SpeakOf (implication_of implication.now) (nnf_items readings)) }
{
    rows_say_what_comparisons_say();
    let mut table = implication.terms(alloc)?;
    let mut readings = Nnfs::new(alloc)?;
    for pred in implication.hypotheses.as_slice() {
        readings.push(read(alloc, pred, true, &mut table)?)?;
    }
    readings.push(read(alloc, &implication.goal, false, &mut table)?)?;
    Ok(readings)
}
