// What is known to hold at the values of a path.
ghost use Rattle.std.specs.Prelude.{◌≡◌, ◌==◌, ◌↔◌, List, false, true, pos, IfErr, IfOk, IsTrue, MatchBool, length, map};
ghost use Rattle.lq_prover_case.specs.State.RowState.{is_solved, row_point, terms_of};
ghost use Rattle.lq_logic_rows.specs.Row.{RowHolds, level};
ghost use Rattle.lq_logic_rows.specs.Steps.{IsStep};
ghost use Rattle.lq_base_numbers.specs.Rationals.Rational.{whole};
ghost use Rattle.lq_base_numbers.specs.Rationals.RationalOrder.{◌≤ℚ◌};
ghost use Rattle.lq_base_numbers.specs.Fractions.Past.{IsPast};
ghost use Rattle.lq_base_numbers.specs.Fractions.Value.{value_of};
ghost use Rattle.lq_logic_predicates.specs.NnfView.{nnf_view, nnfs_view};
ghost use Rattle.lq_logic_predicates.specs.Points.{Point};
ghost use Rattle.lq_logic_predicates.specs.RowMeaning.{MeetsAllRows, MeetsAnyRow, MeetsRows};
ghost use Rattle.lq_logic_predicates.specs.Sum.{Sum};
ghost use Rattle.lq_logic_predicates.specs.Table.{has_term};
ghost use Rattle.lq_logic_predicates.specs.TermView.{sum_of};
ghost use Rattle.lq_prover_search.specs.Path.Meeting.{IsAt, IsPastIn, IsPastInAny, IsRowPast};
ghost use Rattle.lq_prover_search.specs.Path.Readings.{AreOver, IsOver};

use crate::path::numbering::number_of;
use indexmap::IndexSet;
use lq_base_numbers::fractions::{Frac, NumberPast};
use lq_logic_predicates::{Nnf, Nnfs, Symbol, Term};
use lq_logic_rows::LinearRow;
use lq_prover_case::state::PathState;
use std::cmp::Ordering;

/// The sum and the constant of a row at the values.
fn level_at(state: &PathState, row: &LinearRow) -> Result<Frac, NumberPast>
    requires { is_solved state.now.rows ≡ true }
    ensures exact { IfOk result (λ f. value_of f ≡ level (row_point state.now.rows) row.now) }
    ensures past { IfErr result IsPast }
    ensures step { IfErr result (λ e. IsStep (row_point state.now.rows) row.now e.op (value_of e.left)
        (value_of e.right)) }
{
    let mut total = Frac::whole(0);
    for (term, coefficient) in row.parts() {
        let product = Frac::whole(*coefficient).mul(&state.value(*term))?;
        total = total.add(&product)?;
    }
    total.add(&Frac::whole(row.constant()))
}

/// Whether a row with this level holds.
fn is_met(level: &Frac, equal: bool) -> bool
    ensures { IsTrue result ↔ MatchBool equal (value_of level.now ≡ whole (pos 0))
        (value_of level.now ≤ℚ whole (pos 0)) }
{
    match level.cmp(&Frac::whole(0)) {
        Ordering::Less => !equal,
        Ordering::Equal => true,
        Ordering::Greater => false,
    }
}

/// Whether a row is known to hold at the values. It isn't known where an operation has no form of 128 bits.
fn row_holds(state: &PathState, row: &LinearRow) -> bool
    requires { is_solved state.now.rows ≡ true }
    ensures holds { IsTrue result → RowHolds (row_point state.now.rows) row.now }
    ensures unknown { result ≡ false → RowHolds (row_point state.now.rows) row.now
        → IsRowPast (row_point state.now.rows) row.now }
{
    match level_at(state, row) {
        Ok(level) => is_met(&level, row.equal()),
        Err(_) => false,
    }
}

/// Whether a flag has a value. A flag that no fact gives one is false.
fn flag_holds(state: &PathState, flag: Symbol, value: bool) -> bool
    ensures { (objects : List Sum) (p : Point) → IsAt objects state.now p → IsTrue result ↔ (p.holds flag ≡ value) }
{
    let known = match state.flag(flag) {
        Some(given) => given.value,
        None => false,
    };
    known == value
}

/// Whether two objects are one, or whether they aren't.
fn same_holds(
    state: &PathState,
    objects: &IndexSet<Term>,
    left: &Term,
    right: &Term,
    one: bool,
) -> bool
    requires left_in { has_term (map sum_of objects.now.keys) (sum_of left.now) ≡ true }
    requires right_in { has_term (map sum_of objects.now.keys) (sum_of right.now) ≡ true }
    requires count { state.now.objects.count ≡ length objects.now.keys }
    ensures { (p : Point) → IsAt (map sum_of objects.now.keys) state.now p → IsTrue result
        ↔ ((p.class_of (sum_of left.now) == p.class_of (sum_of right.now)) ≡ one) }
{
    let left = number_of(objects, left) as usize;
    let right = number_of(objects, right) as usize;
    let classes = state.classes();
    (classes[left] == classes[right]) == one
}

/// Whether a reading is known to be met at the values. A flag that no fact gives a value is false, and objects are one only where facts
/// make them one. One that is met is known to be, but where an operation by which one of its rows is evaluated has no form of 128 bits.
#[cycle(meets)]
pub fn meets(state: &PathState, objects: &IndexSet<Term>, reading: &Nnf) -> bool
    requires solved { is_solved state.now.rows ≡ true }
    requires over { IsOver (terms_of state.now.rows) (map sum_of objects.now.keys) (nnf_view reading.now) }
    requires count { state.now.objects.count ≡ length objects.now.keys }
    ensures met { (p : Point) → IsAt (map sum_of objects.now.keys) state.now p → IsTrue result
        → MeetsRows (row_point state.now.rows) p (nnf_view reading.now) }
    ensures unknown { (p : Point) → IsAt (map sum_of objects.now.keys) state.now p → result ≡ false
        → MeetsRows (row_point state.now.rows) p (nnf_view reading.now)
        → IsPastIn (row_point state.now.rows) (nnf_view reading.now) }
{
    match reading {
        Nnf::Yes => true,
        Nnf::No => false,
        Nnf::Row(row) => row_holds(state, row),
        Nnf::Flag(flag, value) => flag_holds(state, *flag, *value),
        Nnf::Same(left, right, one) => same_holds(state, objects, left, right, *one),
        Nnf::All(all) => meets_all(state, objects, all),
        Nnf::Any(any) => meets_any(state, objects, any),
    }
}

/// Whether all of some readings are known to be met.
#[cycle(meets)]
fn meets_all(state: &PathState, objects: &IndexSet<Term>, all: &Nnfs) -> bool
    requires solved { is_solved state.now.rows ≡ true }
    requires over { AreOver (terms_of state.now.rows) (map sum_of objects.now.keys) (nnfs_view all.now) }
    requires count { state.now.objects.count ≡ length objects.now.keys }
    ensures met { (p : Point) → IsAt (map sum_of objects.now.keys) state.now p → IsTrue result
        → MeetsAllRows (row_point state.now.rows) p (nnfs_view all.now) }
    ensures unknown { (p : Point) → IsAt (map sum_of objects.now.keys) state.now p → result ≡ false
        → MeetsAllRows (row_point state.now.rows) p (nnfs_view all.now)
        → IsPastInAny (row_point state.now.rows) (nnfs_view all.now) }
{
    for reading in all.as_slice() {
        if !meets(state, objects, reading) {
            return false;
        }
    }
    true
}

/// Whether at least one of some readings is known to be met.
#[cycle(meets)]
pub fn meets_any(state: &PathState, objects: &IndexSet<Term>, any: &Nnfs) -> bool
    requires solved { is_solved state.now.rows ≡ true }
    requires over { AreOver (terms_of state.now.rows) (map sum_of objects.now.keys) (nnfs_view any.now) }
    requires count { state.now.objects.count ≡ length objects.now.keys }
    ensures met { (p : Point) → IsAt (map sum_of objects.now.keys) state.now p → IsTrue result
        → MeetsAnyRow (row_point state.now.rows) p (nnfs_view any.now) }
    ensures unknown { (p : Point) → IsAt (map sum_of objects.now.keys) state.now p → result ≡ false
        → MeetsAnyRow (row_point state.now.rows) p (nnfs_view any.now)
        → IsPastInAny (row_point state.now.rows) (nnfs_view any.now) }
{
    for reading in any.as_slice() {
        if meets(state, objects, reading) {
            return true;
        }
    }
    false
}
