// What holds at a point.
ghost use Rattle.std.specs.Prelude.{◌≡◌, ◌↔◌, ◌<◌, IsTrue, length, false, unwrap_or, pos, MatchBool};
ghost use Rattle.lq_logic_rows.specs.Row.{RowHolds};
ghost use Rattle.lq_logic_rows.specs.Steps.{valuation_of};
ghost use Rattle.lq_logic_predicates.specs.Comparison.{Comparison};
ghost use Rattle.lq_logic_predicates.specs.NnfView.{nnf_view, nnfs_view};
ghost use Rattle.lq_logic_predicates.specs.Points.{Meets};
ghost use Rattle.lq_logic_predicates.specs.Reading.{Reading, Gathers};
ghost use Rattle.lq_logic_predicates.specs.RowMeaning.{MeetsRows, MeetsAllRows, MeetsAnyRow};
ghost use Rattle.lq_logic_predicates.specs.TermView.{sum_of};
ghost use Rattle.lq_logic_points.specs.Evaluation.{CanEvaluateRow, CanEvaluate, CanEvaluateEach};
ghost use Rattle.lq_logic_points.specs.Values.{numbers_of, table_of, flag_value, class_value, values_of, as_point, point_of_values};

use crate::point::Point;
use crate::values::PointValues;
use lq_base_numbers::fractions::Frac;
use lq_logic_predicates::{Nnf, Nnfs, rows_say_what_comparisons_say};
use lq_logic_rows::{LinearRow, level_at};
use std::cmp::Ordering;

/// Whether a tightened reading holds at a point. It takes no memory. The rows of a reading by the point's
/// table of a hypothesis or of the negated goal can all be evaluated, and so can those of its parts.
pub fn holds(point: &Point, nnf: &Nnf) -> bool
    requires { CanEvaluate (numbers_of (values_of point.now)) (nnf_view nnf.now) }
    ensures rows { IsTrue result ↔ MeetsRows (valuation_of (numbers_of (values_of point.now)))
        (as_point point.now) (nnf_view nnf.now) }
    ensures reading { (reading : Reading Comparison)
        → Gathers (table_of (values_of point.now)) reading (nnf_view nnf.now) → IsTrue result
        ↔ Meets (as_point point.now) reading }
{
    rows_say_what_comparisons_say();
    let values = point.values();
    let _terms = values.table().len();
    values.meets(nnf)
}

impl PointValues {
    // Whether the reading is met at the values.
    #[cycle(meets)]
    fn meets(&self, nnf: &Nnf) -> bool
        requires { CanEvaluate (numbers_of self.now) (nnf_view nnf.now) }
        ensures { IsTrue result ↔ MeetsRows (valuation_of (numbers_of self.now)) (point_of_values self.now)
            (nnf_view nnf.now) }
    {
        match nnf {
            Nnf::Yes => true,
            Nnf::No => false,
            Nnf::Row(row) => row_holds(row, self.numbers.as_slice()),
            Nnf::Flag(x, sign) => self.flag(*x).unwrap_or(false) == *sign,
            Nnf::Same(a, b, sign) => {
                (self.class(a).unwrap_or(0) == self.class(b).unwrap_or(0)) == *sign
            }
            Nnf::All(all) => self.meets_all(all),
            Nnf::Any(any) => self.meets_any(any),
        }
    }

    #[cycle(meets)]
    fn meets_all(&self, all: &Nnfs) -> bool
        requires { CanEvaluateEach (numbers_of self.now) (nnfs_view all.now) }
        ensures { IsTrue result ↔ MeetsAllRows (valuation_of (numbers_of self.now))
            (point_of_values self.now) (nnfs_view all.now) }
    {
        for nnf in all.as_slice() {
            if !self.meets(nnf) {
                return false;
            }
        }
        true
    }

    #[cycle(meets)]
    fn meets_any(&self, any: &Nnfs) -> bool
        requires { CanEvaluateEach (numbers_of self.now) (nnfs_view any.now) }
        ensures { IsTrue result ↔ MeetsAnyRow (valuation_of (numbers_of self.now))
            (point_of_values self.now) (nnfs_view any.now) }
    {
        for nnf in any.as_slice() {
            if self.meets(nnf) {
                return true;
            }
        }
        false
    }
}

// Whether a row that can be evaluated holds at the numbers.
fn row_holds(row: &LinearRow, numbers: &[Frac]) -> bool
    requires { CanEvaluateRow numbers.now row.now }
    ensures { IsTrue result ↔ RowHolds (valuation_of numbers.now) row.now }
{
    match level_at(row, numbers) {
        Ok(level) => is_met(&level, row.equal()),
        Err(_) => false,
    }
}

// Whether a level is 0, or at most 0.
fn is_met(level: &Frac, equal: bool) -> bool
    ensures { IsTrue result ↔ MatchBool equal (value_of level.now ≡ whole (pos 0))
        (value_of level.now ≤ℚ whole (pos 0)) }
{
    if equal {
        level.is_zero()
    } else {
        is_at_most(level, &Frac::whole(0))
    }
}

ghost use Rattle.lq_base_numbers.specs.Rationals.Rational.{whole};
ghost use Rattle.lq_base_numbers.specs.Rationals.RationalOrder.{◌≤ℚ◌};
ghost use Rattle.lq_base_numbers.specs.Fractions.Value.{value_of};

pub(crate) fn is_at_most(left: &Frac, right: &Frac) -> bool
    ensures { IsTrue result ↔ (value_of left.now ≤ℚ value_of right.now) }
{
    match left.cmp(right) {
        Ordering::Less | Ordering::Equal => true,
        Ordering::Greater => false,
    }
}
