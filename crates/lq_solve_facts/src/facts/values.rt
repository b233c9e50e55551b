// Whether readings are met at values that solve the facts.
ghost use Rattle.std.specs.Prelude.{◌≡◌, ◌↔◌, true, pos, IfOk, IfSome, IsTrue, MatchBool, map};
ghost use Rattle.lq_prover_case.specs.State.RowState.{is_solved, row_point};
ghost use Rattle.lq_logic_rows.specs.Row.{RowHolds, level};
ghost use Rattle.lq_base_numbers.specs.Rationals.Rational.{whole};
ghost use Rattle.lq_base_numbers.specs.Rationals.RationalOrder.{◌≤ℚ◌};
ghost use Rattle.lq_base_numbers.specs.Fractions.Value.{value_of};
ghost use Rattle.lq_logic_predicates.specs.NnfView.{nnf_view, nnfs_view};
ghost use Rattle.lq_logic_predicates.specs.Points.{Point};
ghost use Rattle.lq_logic_predicates.specs.RowMeaning.{MeetsAllRows, MeetsAnyRow, MeetsRows};
ghost use Rattle.lq_solve_facts.specs.Facts.Read.{hypothesis_reading};
ghost use Rattle.lq_solve_facts.specs.Facts.Values.{HasFlags, MeetsEachRow};

use crate::facts::read::ReadPred;
use lq_base_numbers::fractions::{Frac, NumberPast};
use lq_logic_predicates::{Nnf, Nnfs, Symbol};
use lq_logic_rows::LinearRow;
use lq_prover_case::state::PathState;
use std::cmp::Ordering;
use std::rc::Rc;

/// The sum and the constant of a row at the values.
fn level_at(state: &PathState, row: &LinearRow) -> Result<Frac, NumberPast>
    requires { is_solved state.now.rows ≡ true }
    ensures { IfOk result (λ f. value_of f ≡ level (row_point state.now.rows) row.now) }
{
    let mut total = Frac::whole(0);
    for (term, coefficient) in row.parts() {
        let product = Frac::whole(*coefficient).mul(&state.value(*term))?;
        total = total.add(&product)?;
    }
    total.add(&Frac::whole(row.constant()))
}

/// Whether a row with this level holds.
fn is_met(level: &Frac, equal: bool) -> bool
    ensures { IsTrue result ↔ MatchBool equal (value_of level.now ≡ whole (pos 0))
        (value_of level.now ≤ℚ whole (pos 0)) }
{
    match level.cmp(&Frac::whole(0)) {
        Ordering::Less => !equal,
        Ordering::Equal => true,
        Ordering::Greater => false,
    }
}

/// Whether a row holds at the values, and None where an operation has no form of 128 bits.
fn row_holds(state: &PathState, row: &LinearRow) -> Option<bool>
    requires { is_solved state.now.rows ≡ true }
    ensures { IfSome result (λ b. IsTrue b ↔ RowHolds (row_point state.now.rows) row.now) }
{
    match level_at(state, row) {
        Ok(level) => Some(is_met(&level, row.equal())),
        Err(_) => None,
    }
}

/// Whether a flag has a value. A flag that no fact gives one is false.
fn flag_holds(state: &PathState, flag: Symbol, value: bool) -> bool
    ensures { (p : Point) → HasFlags state.now p → IsTrue result ↔ (p.holds flag ≡ value) }
{
    let known = match state.flag(flag) {
        Some(given) => given.value,
        None => false,
    };
    known == value
}

/// Whether a reading is met at the values. None where this hangs on two objects, or on a row with an operation that has no form of 128 bits.
#[cycle(evaluate)]
pub(crate) fn evaluate(state: &PathState, reading: &Nnf) -> Option<bool>
    requires { is_solved state.now.rows ≡ true }
    ensures { IfSome result (λ b. (p : Point) → HasFlags state.now p
        → IsTrue b ↔ MeetsRows (row_point state.now.rows) p (nnf_view reading.now)) }
{
    match reading {
        Nnf::Yes => Some(true),
        Nnf::No => Some(false),
        Nnf::Row(row) => row_holds(state, row),
        Nnf::Flag(flag, value) => Some(flag_holds(state, *flag, *value)),
        Nnf::Same(_, _, _) => None,
        Nnf::All(all) => evaluate_all(state, all),
        Nnf::Any(any) => evaluate_any(state, any),
    }
}

/// Whether all of some readings are met.
#[cycle(evaluate)]
fn evaluate_all(state: &PathState, all: &Nnfs) -> Option<bool>
    requires { is_solved state.now.rows ≡ true }
    ensures { IfSome result (λ b. (p : Point) → HasFlags state.now p
        → IsTrue b ↔ MeetsAllRows (row_point state.now.rows) p (nnfs_view all.now)) }
{
    let mut known = true;
    for reading in all.as_slice() {
        let Some(met) = evaluate(state, reading) else {
            known = false;
            continue;
        };
        if !met {
            return Some(false);
        }
    }
    if known { Some(true) } else { None }
}

/// Whether at least one of some readings is met.
#[cycle(evaluate)]
fn evaluate_any(state: &PathState, any: &Nnfs) -> Option<bool>
    requires { is_solved state.now.rows ≡ true }
    ensures { IfSome result (λ b. (p : Point) → HasFlags state.now p
        → IsTrue b ↔ MeetsAnyRow (row_point state.now.rows) p (nnfs_view any.now)) }
{
    let mut known = true;
    for reading in any.as_slice() {
        let Some(met) = evaluate(state, reading) else {
            known = false;
            continue;
        };
        if met {
            return Some(true);
        }
    }
    if known { Some(false) } else { None }
}

/// Whether a predicate that was read is plain, and its reading known to be met at the values.
fn is_known_met(state: &PathState, read: &ReadPred) -> bool
    requires { is_solved state.now.rows ≡ true }
    ensures { IsTrue result → (p : Point) → HasFlags state.now p
        → MeetsRows (row_point state.now.rows) p (hypothesis_reading read.now) }
{
    if !read.is_plain {
        return false;
    }
    match &read.met {
        Some(reading) => match evaluate(state, reading) {
            Some(met) => met,
            None => false,
        },
        None => false,
    }
}

/// Whether each of some predicates that were read is plain, and its reading known to be met at the values.
pub(crate) fn meets_each(state: &PathState, readings: &[Rc<ReadPred>]) -> bool
    requires { is_solved state.now.rows ≡ true }
    ensures { IsTrue result → (p : Point) → HasFlags state.now p
        → MeetsEachRow (row_point state.now.rows) p (map (λ r. hypothesis_reading r.value) readings.now) }
{
    for reading in readings {
        if !is_known_met(state, reading.as_ref()) {
            return false;
        }
    }
    true
}
