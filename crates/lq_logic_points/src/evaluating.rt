// The rows of readings, evaluated.
ghost use Rattle.std.specs.Prelude.{◌≡◌, OnOk, IfErr, length};
ghost use Rattle.lq_logic_rows.specs.Steps.{valuation_of};
ghost use Rattle.lq_base_numbers.specs.Fractions.Past.{IsPast};
ghost use Rattle.lq_base_numbers.specs.declared.fractions.past.NumberPast.{NumberPast};
ghost use Rattle.lq_logic_predicates.specs.NnfView.{nnf_view, nnfs_view};
ghost use Rattle.lq_logic_predicates.specs.PredView.{formula_of};
ghost use Rattle.lq_logic_predicates.specs.Reading.{reading_of, formula_numbered, AllFitIn};
ghost use Rattle.lq_logic_predicates.specs.TableView.{terms_of};
ghost use Rattle.lq_logic_points.specs.Evaluation.{CanEvaluate, CanEvaluateEach, Evaluates, HasAllValues, HasEachValue, IsStepIn, IsStepInAny, IsStepOf};
ghost use Rattle.lq_logic_predicates.specs.Literals.{comparisons_of};

use crate::error::PointError;
use lq_base_numbers::fractions::{Frac, NumberPast};
use lq_logic_predicates::{
    GatherError, Nnf, Nnfs, Pred, TermTable, rows_say_what_comparisons_say, tighten,
};
use lq_logic_rows::level_at;
use std::alloc::Global;

// Evaluates each row of a reading.
#[cycle(evaluate_rows)]
fn evaluate_rows(nnf: &Nnf, numbers: &[Frac]) -> Result<(), NumberPast>
    requires { HasAllValues numbers.now (nnf_view nnf.now) }
    ensures ok { OnOk result (CanEvaluate numbers.now (nnf_view nnf.now)) }
    ensures past { IfErr result IsPast }
    ensures step { IfErr result (λ e. IsStepIn (valuation_of numbers.now) (nnf_view nnf.now) e) }
{
    match nnf {
        Nnf::Row(row) => {
            level_at(row, numbers)?;
            Ok(())
        }
        Nnf::All(rows) | Nnf::Any(rows) => evaluate_each_row(rows, numbers),
        Nnf::Yes | Nnf::No | Nnf::Flag(_, _) | Nnf::Same(_, _, _) => Ok(()),
    }
}

#[cycle(evaluate_rows)]
fn evaluate_each_row(nnfs: &Nnfs, numbers: &[Frac]) -> Result<(), NumberPast>
    requires { HasEachValue numbers.now (nnfs_view nnfs.now) }
    ensures ok { OnOk result (CanEvaluateEach numbers.now (nnfs_view nnfs.now)) }
    ensures past { IfErr result IsPast }
    ensures step { IfErr result (λ e. IsStepInAny (valuation_of numbers.now) (nnfs_view nnfs.now) e) }
{
    for nnf in nnfs.as_slice() {
        evaluate_rows(nnf, numbers)?;
    }
    Ok(())
}

// Evaluates each row of the reading of a predicate, or of its negation, whose terms the table has.
pub(crate) fn evaluate(
    alloc: Global,
    pred: &Pred,
    positive: bool,
    numbers: &[Frac],
    table: &mut TermTable,
) -> Result<(), PointError>
    requires has { formula_numbered (terms_of table.old) (formula_of pred.now) ≡ terms_of table.old }
    requires fits { AllFitIn (reading_of positive (formula_of pred.now)) }
    requires one_each { length numbers.now ≡ length (terms_of table.old) }
    ensures same { OnOk result (terms_of table.new ≡ terms_of table.old) }
    ensures ok { OnOk result (Evaluates (terms_of table.old) numbers.now
        (reading_of positive (formula_of pred.now))) }
    ensures past { IfErr result (λ e. (n : NumberPast) → e ≡ PointError.Past n → IsPast n) }
    ensures step { IfErr result (λ e. (n : NumberPast) → e ≡ PointError.Past n
        → IsStepOf (comparisons_of (reading_of positive (formula_of pred.now)))
        (terms_of table.old) numbers.now n) }
{
    rows_say_what_comparisons_say();
    match tighten(alloc, pred, positive, table) {
        Ok(nnf) => Ok(evaluate_rows(&nnf, numbers)?),
        Err(GatherError::Memory) => Err(PointError::Memory),
        Err(GatherError::Past) => unreachable!(),
    }
}
