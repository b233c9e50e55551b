// What is known of readings: their literals are taken as facts, and what they clash with is refuted.
ghost use Rattle.std.specs.Prelude.{◌≡◌, IsTrue};
ghost use Rattle.lq_prover_case.specs.State.RowState.{terms_of};
ghost use Rattle.lq_prover_proof_tree.specs.Trees.Met.{AllHold};
ghost use Rattle.lq_logic_rows.specs.Row.{Valuation};
ghost use Rattle.lq_logic_predicates.specs.NnfView.{nnf_view, nnfs_view};
ghost use Rattle.lq_logic_predicates.specs.Points.{Point};
ghost use Rattle.lq_logic_predicates.specs.RowMeaning.{MeetsAllRows, MeetsAnyRow, MeetsRows};
ghost use Rattle.lq_solve_facts.specs.Facts.Facts.{Grows, facts_of};

use crate::facts::clash::{clashes, take_flag, take_row};
use lq_logic_predicates::{Nnf, Nnfs};
use lq_logic_rows::Mark;
use lq_prover_case::state::PathState;

/// Takes the literals of a reading that stand under no choice as facts, but for those about objects. The answer is whether they are known
/// to clash.
#[cycle(take)]
pub(crate) fn take(state: &mut PathState, room: u64, reading: &Nnf) -> bool
    requires { terms_of state.old.rows ≡ room }
    ensures held { (v : Valuation) (p : Point) → AllHold v p (facts_of state.old)
        → MeetsRows v p (nnf_view reading.now) → AllHold v p (facts_of state.new) }
    ensures clash { IsTrue result → (v : Valuation) (p : Point) → AllHold v p (facts_of state.old)
        → MeetsRows v p (nnf_view reading.now) → ⊥ }
    ensures grows { Grows (facts_of state.old) (facts_of state.new) }
    ensures limits { terms_of state.new.rows ≡ terms_of state.old.rows }
{
    match reading {
        Nnf::Yes | Nnf::Same(_, _, _) | Nnf::Any(_) => false,
        Nnf::No => true,
        Nnf::Row(row) => take_row(state, room, row),
        Nnf::Flag(flag, value) => take_flag(state, *flag, *value),
        Nnf::All(readings) => take_all(state, room, readings),
    }
}

/// The same of some readings, up to the first known clash.
#[cycle(take)]
fn take_all(state: &mut PathState, room: u64, readings: &Nnfs) -> bool
    requires { terms_of state.old.rows ≡ room }
    ensures held { (v : Valuation) (p : Point) → AllHold v p (facts_of state.old)
        → MeetsAllRows v p (nnfs_view readings.now) → AllHold v p (facts_of state.new) }
    ensures clash { IsTrue result → (v : Valuation) (p : Point) → AllHold v p (facts_of state.old)
        → MeetsAllRows v p (nnfs_view readings.now) → ⊥ }
    ensures grows { Grows (facts_of state.old) (facts_of state.new) }
    ensures limits { terms_of state.new.rows ≡ terms_of state.old.rows }
{
    for reading in readings.as_slice() {
        if take(state, room, reading) {
            return true;
        }
    }
    false
}

/// Takes the literals of a reading that stand under no choice as facts, unless nothing is to be taken.
pub(crate) fn take_unless(nothing: bool, state: &mut PathState, room: u64, reading: &Nnf)
    requires { terms_of state.old.rows ≡ room }
    ensures held { (v : Valuation) (p : Point) → AllHold v p (facts_of state.old)
        → MeetsRows v p (nnf_view reading.now) → AllHold v p (facts_of state.new) }
    ensures grows { Grows (facts_of state.old) (facts_of state.new) }
    ensures limits { terms_of state.new.rows ≡ terms_of state.old.rows }
{
    if nothing {
        return;
    }
    let _clashes = take(state, room, reading);
}

/// Takes the literals of a reading. The answer is whether the facts are known to clash then; a check is made only where it is asked for.
fn take_and_check(state: &mut PathState, room: u64, checks: bool, reading: &Nnf) -> bool
    requires { terms_of state.old.rows ≡ room }
    ensures refuted { IsTrue result → (v : Valuation) (p : Point) → AllHold v p (facts_of state.old)
        → MeetsRows v p (nnf_view reading.now) → ⊥ }
    ensures grows { Grows (facts_of state.old) (facts_of state.new) }
    ensures limits { terms_of state.new.rows ≡ terms_of state.old.rows }
{
    if take(state, room, reading) {
        return true;
    }
    if checks {
        return clashes(state);
    }
    false
}

/// Whether the facts are known to clash with the literals of a reading. They are then as before.
fn clashes_with(state: &mut PathState, room: u64, checks: bool, reading: &Nnf) -> bool
    requires { terms_of state.old.rows ≡ room }
    ensures refuted { IsTrue result → (v : Valuation) (p : Point) → AllHold v p (facts_of state.old)
        → MeetsRows v p (nnf_view reading.now) → ⊥ }
    ensures same { facts_of state.new ≡ facts_of state.old }
    ensures limits { terms_of state.new.rows ≡ terms_of state.old.rows }
{
    let before = state.mark();
    let found = take_and_check(state, room, checks, reading);
    let _after = state.mark();
    state.back_to(Mark(before.0));
    found
}

/// Whether a reading is known to be met nowhere where the facts hold. They are then as before.
#[cycle(refutes)]
pub(crate) fn refutes(state: &mut PathState, room: u64, checks: bool, reading: &Nnf) -> bool
    requires { terms_of state.old.rows ≡ room }
    ensures refuted { IsTrue result → (v : Valuation) (p : Point) → AllHold v p (facts_of state.old)
        → MeetsRows v p (nnf_view reading.now) → ⊥ }
    ensures same { facts_of state.new ≡ facts_of state.old }
    ensures limits { terms_of state.new.rows ≡ terms_of state.old.rows }
{
    match reading {
        Nnf::Any(members) => refutes_each(state, room, checks, members),
        Nnf::Yes | Nnf::No | Nnf::Row(_) | Nnf::Flag(_, _) | Nnf::Same(_, _, _) | Nnf::All(_) => {
            clashes_with(state, room, checks, reading)
        }
    }
}

/// Whether none of some readings is known to be met anywhere where the facts hold. They are then as before.
#[cycle(refutes)]
fn refutes_each(state: &mut PathState, room: u64, checks: bool, readings: &Nnfs) -> bool
    requires { terms_of state.old.rows ≡ room }
    ensures refuted { IsTrue result → (v : Valuation) (p : Point) → AllHold v p (facts_of state.old)
        → MeetsAnyRow v p (nnfs_view readings.now) → ⊥ }
    ensures same { facts_of state.new ≡ facts_of state.old }
    ensures limits { terms_of state.new.rows ≡ terms_of state.old.rows }
{
    for reading in readings.as_slice() {
        if !refutes(state, room, checks, reading) {
            return false;
        }
    }
    true
}
