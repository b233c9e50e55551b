// Probing: which of the ways of a pair stay open when their rows are taken.
ghost use Rattle.std.specs.Prelude.{◌≡◌, List, All, IfSome, length, true};
ghost use Rattle.lq_prover_case.specs.State.PathState.{KeepsHanded};
ghost use Rattle.lq_prover_case.specs.State.RowState.{is_solved, terms_of};
ghost use Rattle.lq_prover_search.specs.declared.path.choice.Choice.{Choice};
ghost use Rattle.lq_logic_predicates.specs.NnfView.{nnf_view, nnfs_view};
ghost use Rattle.lq_prover_search.specs.Search.Scope.{AreWithin, IsWithin};
ghost use Rattle.lq_prover_search.specs.Search.SearchPath.{AreGiven, IsBack, IsReady, scope_of};
ghost use Rattle.lq_prover_search.specs.Search.Splits.{IsOpen};
ghost use Rattle.lq_prover_search.specs.Search.Unmoved.{IsUnmoved};

use crate::path::Choice;
use crate::search::choosing::{broken, is_open};
use crate::search::givens::Givens;
use crate::search::inner::{inside, none_looked};
use crate::search::parts::add_parts;
use crate::search::search_path::SearchPath;
use crate::search::taking::take_parts;
use lq_logic_predicates::{Nnf, Nnfs};
use lq_prover_case::state::PathState;
use std::alloc::Global;

/// How many pairs that the values break are looked at.
const PAIRS: usize = 256;

/// Whether a member clashes with what is known as its literals are taken. The facts are then as before.
fn is_closed(alloc: Global, givens: &Givens<'_>, state: &mut PathState, member: &Nnf) -> bool
    requires within { IsWithin (scope_of givens.now) (nnf_view member.now) }
    requires terms { terms_of state.old.rows ≡ length (scope_of givens.now).terms }
    requires count { state.old.objects.count ≡ length (scope_of givens.now).objects }
    ensures { IsUnmoved state.old state.new }
{
    let mut parts = Vec::new(alloc);
    let mut choices = Vec::new(alloc);
    let Ok(()) = add_parts(member, &mut parts, &mut choices) else {
        return false;
    };
    let before = state.mark();
    let taken = take_parts(state, givens.objects, &parts);
    state.back_to(before);
    match taken {
        Ok(Some(_)) => true,
        Ok(None) => false,
        Err(_) => false,
    }
}

/// How many members stay open, up to so many.
fn count_open(
    alloc: Global,
    givens: &Givens<'_>,
    state: &mut PathState,
    members: &Nnfs,
    most: usize,
) -> usize
    requires within { AreWithin (scope_of givens.now) (nnfs_view members.now) }
    requires terms { terms_of state.old.rows ≡ length (scope_of givens.now).terms }
    requires count { state.old.objects.count ≡ length (scope_of givens.now).objects }
    ensures { IsUnmoved state.old state.new }
{
    let mut count: usize = 0;
    for member in members.as_slice() {
        if count >= most {
            return count;
        }
        if !is_closed(alloc, givens, state, member) {
            count = count.saturating_add(1);
        }
    }
    count
}

/// A choice by its place, and how many of its members stay open, up to three.
#[derive(Clone, Copy)]
struct Counted {
    at: usize,
    alive: usize,
}

/// How many members stay open of the choice at a place, where there is one and no member of it was taken.
fn count_at(
    alloc: Global,
    givens: &Givens<'_>,
    state: &mut PathState,
    choices: &[Choice<'_>],
    at: usize,
) -> Option<Counted>
    requires within { All (λ c. AreWithin (scope_of givens.now) (nnfs_view c.members.now)) choices.now }
    requires terms { terms_of state.old.rows ≡ length (scope_of givens.now).terms }
    requires count { state.old.objects.count ≡ length (scope_of givens.now).objects }
    ensures some { IfSome result (λ r. IsOpen choices.now r.at) }
    ensures unmoved { IsUnmoved state.old state.new }
{
    if at >= choices.len() {
        return None;
    }
    if !is_open(choices, at) {
        return None;
    }
    let alive = count_open(alloc, givens, state, choices[at].members, 3);
    Some(Counted { at, alive })
}

/// Whether at most one member stays open.
fn is_nearly_closed(found: Option<Counted>) -> bool {
    match found {
        Some(counted) => counted.alive < 2,
        None => false,
    }
}

/// The last of some pairs of which at most one way stays open, and else the first pair with what is known of it.
fn innermost(
    alloc: Global,
    givens: &Givens<'_>,
    state: &mut PathState,
    pairs: &[Choice<'_>],
    places: &[usize],
) -> Option<Counted>
    requires within { All (λ c. AreWithin (scope_of givens.now) (nnfs_view c.members.now)) pairs.now }
    requires terms { terms_of state.old.rows ≡ length (scope_of givens.now).terms }
    requires count { state.old.objects.count ≡ length (scope_of givens.now).objects }
    ensures some { IfSome result (λ r. IsOpen pairs.now r.at) }
    ensures unmoved { IsUnmoved state.old state.new }
{
    let mut last = None;
    for k in 0..places.len() {
        let at = places[places.len() - 1 - k];
        last = count_at(alloc, givens, state, pairs, at);
        if is_nearly_closed(last) {
            return last;
        }
    }
    last
}

/// The one of which fewer members stay open, and the first where as many do.
fn fewer(one: Option<Counted>, other: Option<Counted>) -> Option<Counted>
    ensures { (choices : List Choice) → IfSome one (λ r. IsOpen choices r.at) → IfSome other (λ r. IsOpen choices r.at)
        → IfSome result (λ r. IsOpen choices r.at) }
{
    let Some(first) = one else {
        return other;
    };
    let Some(second) = other else {
        return one;
    };
    if second.alive < first.alive {
        return other;
    }
    one
}

/// Of some pairs and those inside their arguments one of which at most one way stays open, and else one of the pairs of which the fewest do.
fn probe_pairs(
    alloc: Global,
    givens: &Givens<'_>,
    state: &mut PathState,
    pairs: &[Choice<'_>],
    places: &[usize],
) -> Option<Counted>
    requires within { All (λ c. AreWithin (scope_of givens.now) (nnfs_view c.members.now)) pairs.now }
    requires terms { terms_of state.old.rows ≡ length (scope_of givens.now).terms }
    requires count { state.old.objects.count ≡ length (scope_of givens.now).objects }
    ensures some { IfSome result (λ r. IsOpen pairs.now r.at) }
    ensures unmoved { IsUnmoved state.old state.new }
{
    let mut looked = none_looked(alloc, pairs.len());
    let mut best = None;
    for at in places {
        let list = inside(alloc, givens.pairs, *at, &mut looked);
        let found = innermost(alloc, givens, state, pairs, &list);
        best = fewer(best, found);
        if is_nearly_closed(best) {
            return best;
        }
    }
    best
}

/// Which pair is split where the values break the pair at a place: one of which at most one way stays open, if probing finds one among those
/// that they break and those inside their arguments, and else one that they break.
pub(crate) fn probed_pair<'a>(
    alloc: Global,
    givens: &Givens<'a>,
    path: &mut SearchPath<'a>,
    first: usize,
) -> usize
    requires given { AreGiven (scope_of givens.now) givens.now.pairs.now }
    requires ready { IsReady (scope_of givens.now) givens.now.pairs.now path.old }
    requires solved { is_solved path.old.state.rows ≡ true }
    requires is_open { IsOpen path.old.pairs.items first }
    ensures is_open { IsOpen path.new.pairs.items result }
    ensures back { IsBack path.old path.new }
    ensures handed { KeepsHanded path.old.state path.new.state }
{
    let objects = givens.objects.as_set();
    let places = broken(alloc, &path.state, objects, &path.pairs, first, PAIRS);
    match probe_pairs(alloc, givens, &mut path.state, &path.pairs, &places) {
        Some(pair) => pair.at,
        None => first,
    }
}
