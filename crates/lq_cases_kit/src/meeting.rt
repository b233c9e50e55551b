// Whether a point meets the hypotheses of an implication and not its goal.
ghost use Rattle.std.specs.Prelude.{◌≡◌, OnOk};
ghost use Rattle.lq_logic_points.specs.Evaluation.{Evaluates, EvaluatesAll};
ghost use Rattle.lq_logic_points.specs.Values.{numbers_of, table_of, values_of};
ghost use Rattle.lq_logic_predicates.specs.ClosedImplication.{terms_in};
ghost use Rattle.lq_logic_predicates.specs.PredView.{formula_of, implication_of};
ghost use Rattle.lq_logic_predicates.specs.Reading.{formula_numbered, reading_of};
ghost use Rattle.lq_logic_predicates.specs.TableView.{terms_of};

use crate::error::CheckError;
use lq_logic_points::{Point, gathered_readings_can_be_evaluated, holds};
use lq_logic_predicates::{Closed, Pred, TermTable, tighten};
use std::alloc::Global;

/// Whether the point meets the reading of a predicate, or of its negation, by a table that has its terms.
fn meets(
    alloc: Global,
    point: &Point,
    pred: &Pred,
    positive: bool,
    table: &mut TermTable,
) -> Result<bool, CheckError>
    requires numbered { formula_numbered (terms_of table.old) (formula_of pred.now) ≡ terms_of table.old }
    requires table { table_of (values_of point.now) ≡ terms_of table.old }
    requires evaluates { Evaluates (table_of (values_of point.now)) (numbers_of (values_of point.now))
        (reading_of positive (formula_of pred.now)) }
    ensures { OnOk result (terms_of table.new ≡ terms_of table.old) }
{
    gathered_readings_can_be_evaluated();
    let _terms = table.len();
    let reading = tighten(alloc, pred, positive, table)?;
    Ok(holds(point, &reading))
}

/// Whether the point meets each hypothesis and the negated goal.
pub fn refutes(alloc: Global, implication: &Closed, point: &Point) -> Result<bool, CheckError>
    requires table { table_of (values_of point.now) ≡ terms_in (implication_of implication.now) }
    requires evaluates { EvaluatesAll (table_of (values_of point.now)) (numbers_of (values_of point.now))
        (implication_of implication.now) }
{
    let mut table = implication.terms(alloc)?;
    for pred in implication.hypotheses.as_slice() {
        if !meets(alloc, point, pred, true, &mut table)? {
            return Ok(false);
        }
    }
    meets(alloc, point, &implication.goal, false, &mut table)
}
