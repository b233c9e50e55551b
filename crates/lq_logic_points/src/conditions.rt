// Whether values are a point of an implication.
ghost use Rattle.std.specs.Prelude.{◌≡◌, ◌↔◌, Bool, List, IsTrue, IfOk, IfErr, OnOk, All, length, true};
ghost use Rattle.lq_base_numbers.specs.Fractions.Past.{IsPast};
ghost use Rattle.lq_base_numbers.specs.declared.fractions.past.NumberPast.{NumberPast};
ghost use Rattle.lq_logic_predicates.specs.declared.pred.Pred.{Pred};
ghost use Rattle.lq_logic_predicates.specs.declared.symbol.Symbol.{Symbol};
ghost use Rattle.lq_logic_predicates.specs.Comparison.{Comparison, CanGather};
ghost use Rattle.lq_logic_predicates.specs.ClosedImplication.{terms_in, IsPoint};
ghost use Rattle.lq_logic_predicates.specs.Literals.{comparisons_of, implication_literals};
ghost use Rattle.lq_logic_predicates.specs.PredView.{formula_of, implication_of};
ghost use Rattle.lq_logic_predicates.specs.Reading.{reading_of, formula_numbered, AllFitIn};
ghost use Rattle.lq_logic_predicates.specs.Sum.{Sum};
ghost use Rattle.lq_logic_predicates.specs.Table.{has_term};
ghost use Rattle.lq_logic_predicates.specs.TableView.{terms_of};
ghost use Rattle.lq_logic_points.specs.Evaluation.{Evaluates, EvaluatesAll, IsStepOf, AreAmong};
ghost use Rattle.lq_logic_points.specs.Values.{point_from};

use crate::error::PointError;
use crate::evaluating::evaluate;
use crate::pairs::all_agree;
use indexmap::IndexMap;
use lq_base_numbers::fractions::Frac;
use lq_logic_predicates::{Closed, Pred, Term, TermTable};
use std::alloc::Global;

// Evaluates each row of the readings of predicates whose terms the table has.
fn evaluate_each(
    alloc: Global,
    preds: &[Pred],
    numbers: &[Frac],
    table: &mut TermTable,
) -> Result<(), PointError>
    requires has { All (λ p. formula_numbered (terms_of table.old) (formula_of p)
        ≡ terms_of table.old) preds.now }
    requires fits { All (λ p. AllFitIn (reading_of true (formula_of p))) preds.now }
    requires one_each { length numbers.now ≡ length (terms_of table.old) }
    ensures same { OnOk result (terms_of table.new ≡ terms_of table.old) }
    ensures ok { OnOk result (All (λ p. Evaluates (terms_of table.old) numbers.now
        (reading_of true (formula_of p))) preds.now) }
    ensures past { IfErr result (λ e. (n : NumberPast) → e ≡ PointError.Past n → IsPast n) }
    ensures step { IfErr result (λ e. (n : NumberPast) → e ≡ PointError.Past n
        → (literals : List Comparison) → All (λ p. AreAmong literals
        (comparisons_of (reading_of true (formula_of p)))) preds.now
        → IsStepOf literals (terms_of table.old) numbers.now n) }
{
    for pred in preds {
        evaluate(alloc, pred, true, numbers, table)?;
    }
    Ok(())
}

// Whether the values are a point of the implication. Each row of its hypotheses and of its negated goal is
// evaluated on the way.
pub(crate) fn is_point(
    alloc: Global,
    numbers: &[Frac],
    classes: &IndexMap<Term, u64>,
    table: &mut TermTable,
    implication: &Closed,
) -> Result<bool, PointError>
    requires gathers { All CanGather (implication_literals (implication_of implication.now)) }
    requires terms { (t : Sum) → IsTrue (has_term (terms_in (implication_of implication.now)) t)
        → IsTrue (has_term (terms_of table.old) t) }
    requires one_each { length numbers.now ≡ length (terms_of table.old) }
    ensures same { OnOk result (terms_of table.new ≡ terms_of table.old) }
    ensures answer { IfOk result (λ answer. (flags : List (Symbol × Bool)) → IsTrue answer
        ↔ IsPoint (implication_of implication.now)
        (point_from (terms_of table.old) numbers.now flags classes.now.entries)) }
    ensures evaluates { OnOk result (EvaluatesAll (terms_of table.old) numbers.now
        (implication_of implication.now)) }
    ensures past { IfErr result (λ e. (n : NumberPast) → e ≡ PointError.Past n → IsPast n) }
    ensures step { IfErr result (λ e. (n : NumberPast) → e ≡ PointError.Past n
        → IsStepOf (implication_literals (implication_of implication.now))
        (terms_of table.old) numbers.now n) }
{
    evaluate_each(alloc, implication.hypotheses.as_slice(), numbers, table)?;
    evaluate(alloc, &implication.goal, false, numbers, table)?;
    let terms = implication.terms(alloc)?;
    all_agree(alloc, &terms, numbers, classes, table)
}
