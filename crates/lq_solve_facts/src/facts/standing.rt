// How a reading stands to facts: met nowhere where they hold, or taken with them, with values that solve all.
ghost use Rattle.std.specs.Prelude.{◌≡◌, true};
ghost use Rattle.lq_prover_case.specs.State.RowState.{is_solved, terms_of};
ghost use Rattle.lq_prover_proof_tree.specs.Trees.Met.{AllHold};
ghost use Rattle.lq_logic_rows.specs.Row.{Valuation};
ghost use Rattle.lq_logic_predicates.specs.NnfView.{nnf_view, nnfs_view};
ghost use Rattle.lq_logic_predicates.specs.Points.{Point};
ghost use Rattle.lq_logic_predicates.specs.RowMeaning.{MeetsAnyRow, MeetsRows};
ghost use Rattle.lq_solve_facts.specs.Facts.Facts.{Grows, facts_of};
ghost use Rattle.lq_solve_facts.specs.declared.facts.standing.Stand.TheVariants.{Proved, Settled, Unknown};

use crate::facts::reads::take;
use lq_logic_predicates::{Nnf, Nnfs};
use lq_logic_rows::Mark;
use lq_prover_case::state::PathState;
use lq_prover_proof_tree::trees::proved_paths_have_no_point;

/// How a goal stands to facts.
#[derive(Clone, Copy, Debug, PartialEq, Eq)]
pub enum Stand {
    /// They refute its negation.
    Proved,
    /// Its negation is taken with them, and values solve all.
    Settled,
    /// Neither is known.
    Unknown,
}

/// Whether the facts clash, or values solve them.
pub(crate) fn settle_facts(state: &mut PathState) -> Stand
    ensures clash { result ≡ Proved → (v : Valuation) (p : Point) → AllHold v p (facts_of state.old) → ⊥ }
    ensures settled { result ≡ Settled → is_solved state.new.rows ≡ true }
    ensures same { facts_of state.new ≡ facts_of state.old }
    ensures limits { terms_of state.new.rows ≡ terms_of state.old.rows }
{
    proved_paths_have_no_point();
    match state.check() {
        Ok(Some(_clash)) => Stand::Proved,
        Ok(None) => Stand::Settled,
        Err(_) => Stand::Unknown,
    }
}

/// Takes the literals of a reading, and tries to settle the facts with them.
fn settle_taken(state: &mut PathState, room: u64, reading: &Nnf) -> Stand
    requires { terms_of state.old.rows ≡ room }
    ensures refuted { result ≡ Proved → (v : Valuation) (p : Point) → AllHold v p (facts_of state.old)
        → MeetsRows v p (nnf_view reading.now) → ⊥ }
    ensures settled { result ≡ Settled → is_solved state.new.rows ≡ true }
    ensures grows { Grows (facts_of state.old) (facts_of state.new) }
    ensures limits { terms_of state.new.rows ≡ terms_of state.old.rows }
{
    if take(state, room, reading) {
        return Stand::Proved;
    }
    settle_facts(state)
}

/// The same, and the facts are as before where they aren't settled.
fn settle_with(state: &mut PathState, room: u64, reading: &Nnf) -> Stand
    requires { terms_of state.old.rows ≡ room }
    ensures refuted { result ≡ Proved → (v : Valuation) (p : Point) → AllHold v p (facts_of state.old)
        → MeetsRows v p (nnf_view reading.now) → ⊥ }
    ensures settled { result ≡ Settled → is_solved state.new.rows ≡ true }
    ensures grows { Grows (facts_of state.old) (facts_of state.new) }
    ensures proved { result ≡ Proved → facts_of state.new ≡ facts_of state.old }
    ensures unknown { result ≡ Unknown → facts_of state.new ≡ facts_of state.old }
    ensures limits { terms_of state.new.rows ≡ terms_of state.old.rows }
{
    let before = state.mark();
    let found = settle_taken(state, room, reading);
    if found == Stand::Settled {
        return Stand::Settled;
    }
    let _after = state.mark();
    state.back_to(Mark(before.0));
    found
}

/// Whether a reading is met nowhere where the facts hold, or values solve its literals with them. Of a choice each member is to be met nowhere, and the first one of which
/// this isn't known is the answer. The facts are as before where they aren't settled.
#[cycle(settle)]
pub(crate) fn settle(state: &mut PathState, room: u64, reading: &Nnf) -> Stand
    requires { terms_of state.old.rows ≡ room }
    ensures refuted { result ≡ Proved → (v : Valuation) (p : Point) → AllHold v p (facts_of state.old)
        → MeetsRows v p (nnf_view reading.now) → ⊥ }
    ensures settled { result ≡ Settled → is_solved state.new.rows ≡ true }
    ensures grows { Grows (facts_of state.old) (facts_of state.new) }
    ensures proved { result ≡ Proved → facts_of state.new ≡ facts_of state.old }
    ensures unknown { result ≡ Unknown → facts_of state.new ≡ facts_of state.old }
    ensures limits { terms_of state.new.rows ≡ terms_of state.old.rows }
{
    match reading {
        Nnf::Any(members) => settle_each(state, room, members),
        Nnf::Yes | Nnf::No | Nnf::Row(_) | Nnf::Flag(_, _) | Nnf::Same(_, _, _) | Nnf::All(_) => {
            settle_with(state, room, reading)
        }
    }
}

/// The same of some readings of which one is to be met.
#[cycle(settle)]
fn settle_each(state: &mut PathState, room: u64, readings: &Nnfs) -> Stand
    requires { terms_of state.old.rows ≡ room }
    ensures refuted { result ≡ Proved → (v : Valuation) (p : Point) → AllHold v p (facts_of state.old)
        → MeetsAnyRow v p (nnfs_view readings.now) → ⊥ }
    ensures settled { result ≡ Settled → is_solved state.new.rows ≡ true }
    ensures grows { Grows (facts_of state.old) (facts_of state.new) }
    ensures proved { result ≡ Proved → facts_of state.new ≡ facts_of state.old }
    ensures unknown { result ≡ Unknown → facts_of state.new ≡ facts_of state.old }
    ensures limits { terms_of state.new.rows ≡ terms_of state.old.rows }
{
    for reading in readings.as_slice() {
        match settle(state, room, reading) {
            Stand::Proved => {}
            Stand::Settled => return Stand::Settled,
            Stand::Unknown => return Stand::Unknown,
        }
    }
    Stand::Proved
}
