// Whether rows hold at an engine's values.
ghost use Rattle.std.specs.Prelude.{◌≡◌, [], pos, IfOk, IsTrue, MatchBool};
ghost use Rattle.lq_base_numbers.specs.Rationals.Rational.{whole};
ghost use Rattle.lq_base_numbers.specs.Rationals.RationalOrder.{◌≤ℚ◌};
ghost use Rattle.lq_logic_rows.specs.Answers.{Held};
ghost use Rattle.lq_logic_rows.specs.Row.{RowHolds, level};
ghost use Rattle.lq_base_numbers.specs.Fractions.Value.{value_of};
ghost use Rattle.lq_prover_case.specs.State.Stored.{AllHoldAt, HoldsAt};

use crate::state::stored::StoredRow;
use lq_base_numbers::fractions::{Frac, NumberPast};
use lq_logic_rows::{LinearEngine, LinearRow};
use std::cmp::Ordering;

/// The sum and the constant of a row at the values of an engine.
fn level_by<E: LinearEngine>(engine: &E, row: &LinearRow) -> Result<Frac, NumberPast>
    requires { E.last engine.now ≡ Held }
    ensures { IfOk result (λ f. value_of f ≡ level (E.point engine.now) row.now) }
{
    let mut total = Frac::whole(0);
    for (term, coefficient) in row.parts() {
        let product = Frac::whole(*coefficient).mul(&engine.value(*term))?;
        total = total.add(&product)?;
    }
    total.add(&Frac::whole(row.constant()))
}

/// Whether a row with this level holds.
fn is_met(level: &Frac, equal: bool) -> bool
    ensures { IsTrue result → MatchBool equal (value_of level.now ≡ whole (pos 0))
        (value_of level.now ≤ℚ whole (pos 0)) }
{
    match level.cmp(&Frac::whole(0)) {
        Ordering::Less => !equal,
        Ordering::Equal => true,
        Ordering::Greater => false,
    }
}

/// Whether a row is known to hold at the values of an engine. It isn't known where an operation has no form of 128 bits.
fn holds_by<E: LinearEngine>(engine: &E, row: &LinearRow) -> bool
    requires { E.last engine.now ≡ Held }
    ensures { IsTrue result → RowHolds (E.point engine.now) row.now }
{
    match level_by(engine, row) {
        Ok(level) => is_met(&level, row.equal()),
        Err(_) => false,
    }
}

/// Whether the row at an index is known to hold at the values of an engine.
fn holds_at<E: LinearEngine>(engine: &E, rows: &[StoredRow], index: usize) -> bool
    requires { E.last engine.now ≡ Held }
    ensures { IsTrue result → HoldsAt (E.point engine.now) rows.now index }
{
    match rows.get(index) {
        Some(stored) => holds_by(engine, &stored.row),
        None => true,
    }
}

/// Whether the rows at these indexes are known to hold at the values of an engine.
pub(crate) fn all_hold<E: LinearEngine>(engine: &E, rows: &[StoredRow], indexes: &[usize]) -> bool
    requires { E.last engine.now ≡ Held }
    ensures hold { IsTrue result → AllHoldAt (E.point engine.now) rows.now indexes.now }
    ensures none { indexes.now ≡ [] → IsTrue result }
{
    for index in indexes {
        if !holds_at(engine, rows, *index) {
            return false;
        }
    }
    true
}
