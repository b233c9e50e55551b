// Which of the open choices is split.
ghost use Rattle.std.specs.Prelude.{◌≡◌, ◌<◌, All, IfSome, IsTrue, map, length, true};
ghost use Rattle.lq_prover_case.specs.State.RowState.{is_solved, terms_of};
ghost use Rattle.lq_prover_search.specs.Path.Readings.{AreOver};
ghost use Rattle.lq_logic_predicates.specs.NnfView.{nnfs_view};
ghost use Rattle.lq_logic_predicates.specs.TermView.{sum_of};
ghost use Rattle.lq_prover_search.specs.Search.Splits.{IsOpen};

use crate::path::{Choice, meets_any};
use crate::search::notes::FlagNotes;
use crate::search::order::Order;
use indexmap::IndexSet;
use lq_logic_predicates::Term;
use lq_prover_case::state::PathState;
use std::alloc::Global;

/// Whether no member of a choice was taken.
pub(crate) fn is_open(choices: &[Choice<'_>], at: usize) -> bool
    requires { at < length choices.now }
    ensures { IsTrue result → IsOpen choices.now at }
{
    !choices[at].is_done
}

/// A choice of which no member was taken and at most one isn't dead: the first one at or behind a place, or else before it.
pub(crate) fn forced_choice(
    alloc: Global,
    state: &PathState,
    choices: &[Choice<'_>],
    start: usize,
) -> Option<usize>
    ensures { IfSome result (IsOpen choices.now) }
{
    let mut notes = FlagNotes::new(alloc);
    for at in start..choices.len() {
        if is_open(choices, at) && notes.forces(state, choices[at].members) {
            return Some(at);
        }
    }
    for at in 0..start.min(choices.len()) {
        if is_open(choices, at) && notes.forces(state, choices[at].members) {
            return Some(at);
        }
    }
    None
}

/// An open choice with what speaks for it.
#[derive(Clone, Copy)]
struct Ranked {
    at: usize,
    alive: usize,
    weight: u64,
}

/// How a choice ranks.
fn rank_of(
    notes: &mut FlagNotes,
    state: &PathState,
    choices: &[Choice<'_>],
    order: &Order,
    at: usize,
) -> Ranked
    requires { at < length choices.now }
    ensures { result.at ≡ at }
{
    Ranked {
        at,
        alive: notes.count_alive(state, choices[at].members),
        weight: order.weight(at),
    }
}

/// Whether one comes before another: fewer of its members aren't dead, or as many and it is heavier.
fn is_before(one: Ranked, other: Ranked) -> bool {
    one.alive < other.alive || one.alive == other.alive && one.weight > other.weight
}

/// The choice at a place where it is neither done nor met and comes before another one, which is open.
fn better(
    notes: &mut FlagNotes,
    state: &PathState,
    objects: &IndexSet<Term>,
    choices: &[Choice<'_>],
    order: &Order,
    best: Ranked,
    at: usize,
) -> Ranked
    requires solved { is_solved state.now.rows ≡ true }
    requires over { All (λ c. AreOver (terms_of state.now.rows) (map sum_of objects.now.keys) (nnfs_view c.members.now))
        choices.now }
    requires count { state.now.objects.count ≡ length objects.now.keys }
    requires is_open { IsOpen choices.now best.at }
    requires within { at < length choices.now }
    ensures { IsOpen choices.now result.at }
{
    if !is_open(choices, at) {
        return best;
    }
    let other = rank_of(notes, state, choices, order, at);
    if !is_before(other, best) || meets_any(state, objects, choices[at].members) {
        return best;
    }
    other
}

/// Of an open choice and those behind it that aren't done or met: the first one of the heaviest of those with the fewest members that
/// aren't dead.
pub(crate) fn best_choice(
    alloc: Global,
    state: &PathState,
    objects: &IndexSet<Term>,
    choices: &[Choice<'_>],
    order: &Order,
    first: usize,
) -> usize
    requires solved { is_solved state.now.rows ≡ true }
    requires over { All (λ c. AreOver (terms_of state.now.rows) (map sum_of objects.now.keys) (nnfs_view c.members.now))
        choices.now }
    requires count { state.now.objects.count ≡ length objects.now.keys }
    requires is_open { IsOpen choices.now first }
    requires within { first < length choices.now }
    ensures { IsOpen choices.now result }
{
    let mut notes = FlagNotes::new(alloc);
    let mut best = rank_of(&mut notes, state, choices, order, first);
    for at in first + 1..choices.len() {
        best = better(&mut notes, state, objects, choices, order, best, at);
    }
    best.at
}

/// The places of the first choices at or behind a place that are neither done nor met, at most so many.
pub(crate) fn broken(
    alloc: Global,
    state: &PathState,
    objects: &IndexSet<Term>,
    choices: &[Choice<'_>],
    start: usize,
    most: usize,
) -> Vec<usize>
    requires solved { is_solved state.now.rows ≡ true }
    requires over { All (λ c. AreOver (terms_of state.now.rows) (map sum_of objects.now.keys) (nnfs_view c.members.now))
        choices.now }
    requires count { state.now.objects.count ≡ length objects.now.keys }
{
    let mut places = Vec::new(alloc);
    for at in start..choices.len() {
        if places.len() >= most {
            return places;
        }
        if is_open(choices, at) && !meets_any(state, objects, choices[at].members) {
            let Ok(()) = places.push(at) else {
                return places;
            };
        }
    }
    places
}
