// Points of implications.
ghost use Rattle.std.specs.Prelude.{◌≡◌, IfOk, IfErr, IfSome, IfNone, IsTrue, All};
ghost use Rattle.lq_base_numbers.specs.Fractions.Past.{IsPast};
ghost use Rattle.lq_base_numbers.specs.declared.fractions.past.NumberPast.{NumberPast};
ghost use Rattle.lq_logic_predicates.specs.Comparison.{CanGather};
ghost use Rattle.lq_logic_predicates.specs.ClosedImplication.{terms_in, IsPoint};
ghost use Rattle.lq_logic_predicates.specs.Literals.{implication_literals};
ghost use Rattle.lq_logic_predicates.specs.PredView.{implication_of};
ghost use Rattle.lq_logic_predicates.specs.Sum.{Sum};
ghost use Rattle.lq_logic_predicates.specs.Table.{has_term};
ghost use Rattle.lq_logic_points.specs.Evaluation.{EvaluatesAll, IsStepOf};
ghost use Rattle.lq_logic_points.specs.Values.{numbers_of, table_of, values_of, as_point, point_of_values, AreSame};

use crate::conditions::is_point;
use crate::error::PointError;
use crate::values::PointValues;
use lq_logic_predicates::Closed;
use std::alloc::Global;

/// Values that meet the conditions of a point of an implication: equal objects have equal lengths and equal
/// values of each measure, and two products, quotients or remainders have equal arguments and results, or
/// arguments at least 1 apart.
#[derive(Drop)]
pub struct Point {
    pub(crate) values: PointValues,
}

impl Point {
    /// The point of these values, and None exactly where they break a condition of a point of the
    /// implication. Each row of its hypotheses and of its negated goal is evaluated on the way, so that
    /// `holds` can be asked of them. A flag or an object without a value counts as false or as of class 0.
    pub fn new(
        alloc: Global,
        values: PointValues,
        implication: &Closed,
    ) -> Result<Option<Point>, PointError>
        requires gathers { All CanGather (implication_literals (implication_of implication.now)) }
        requires terms { (t : Sum) → IsTrue (has_term (terms_in (implication_of implication.now)) t)
            → IsTrue (has_term (table_of values) t) }
        ensures some { IfOk result (λ made. IfSome made (λ point. IsPoint (implication_of implication.now)
            (as_point point))) }
        ensures none { IfOk result (λ made. IfNone made (IsPoint (implication_of implication.now)
            (point_of_values values) → ⊥)) }
        ensures values { IfOk result (λ made. IfSome made (λ point. AreSame (values_of point) values)) }
        ensures evaluates { IfOk result (λ made. IfSome made
            (λ point. EvaluatesAll (table_of (values_of point)) (numbers_of (values_of point))
            (implication_of implication.now))) }
        ensures past { IfErr result (λ e. (n : NumberPast) → e ≡ PointError.Past n → IsPast n) }
        ensures step { IfErr result (λ e. (n : NumberPast) → e ≡ PointError.Past n
            → IsStepOf (implication_literals (implication_of implication.now)) (table_of values)
            (numbers_of values) n) }
    {
        let PointValues {
            numbers,
            flags,
            classes,
            mut table,
        } = values;
        let meets = is_point(alloc, numbers.as_slice(), &classes, &mut table, implication)?;
        if !meets {
            return Ok(None);
        }
        let values = PointValues {
            numbers,
            flags,
            classes,
            table,
        };
        Ok(Some(Point { values }))
    }

    /// The values of the point.
    pub fn values(&self) -> &PointValues
        ensures { result.now ≡ values_of self.now }
    {
        &self.values
    }
}
