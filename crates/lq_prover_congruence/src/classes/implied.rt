// Applications of one head whose arguments are the same.
ghost use Rattle.std.specs.Prelude.{◌≡◌, ◌↔◌, ℕ, suc, ◌-◌, ◌<◌, ◌≤◌, [], ◌∷◌, ◌++◌, length, map, slice_index, Some, IfSome, IfNone, IsTrue};
ghost use Rattle.std.specs.Iterator.{YieldsFirst, item_count};
ghost use Rattle.lq_prover_congruence.specs.Ring.Ring.{times};
ghost use Rattle.lq_prover_congruence.specs.Classes.Core.{AllBelow, IsShaped};
ghost use Rattle.lq_prover_congruence.specs.Classes.Standing.{core_of};
ghost use Rattle.lq_prover_congruence.specs.Classes.Implied.{IsPartner, IsUnderWay, left_pairs, pair, pairs_on, partners};

use crate::classes::state::State;
use crate::classes::steps::Pair;
use crate::ring::RingWalk;
use std::marker::Model;

/// The pairs of applications of one head whose arguments are the same, the lower number first. Seen as
/// the list of the pairs that are left.
#[derive(Drop)]
pub struct Implied<'a> {
    pub(crate) state: &'a State,
    pub(crate) count: u64,
    pub(crate) left: u64,
    pub(crate) walk: Option<RingWalk<'a>>,
}

impl<'a> Model for Implied<'a> {
    ghost use Rattle.std.specs.Prelude.{List};
    ghost use Rattle.lq_prover_congruence.specs.declared.classes.steps.Pair.{Pair};
    ghost use Rattle.lq_prover_congruence.specs.Classes.Standing.{core_of};
    ghost use Rattle.lq_prover_congruence.specs.Classes.Implied.{left_pairs, IsPlace};

    ghost Value = { List Pair };

    ghost view = { λ p. left_pairs (core_of p.state.now) p.left p.walk };

    ghost invariant = { λ p. IsPlace (core_of p.state.now) p.count p.left p.walk };
}

/// Whether terms have the same labels, one by one.
fn same_args(labels: &[u64], left: &[u64], right: &[u64]) -> bool
    requires left_in { AllBelow (length labels.now) left.now }
    requires right_in { AllBelow (length labels.now) right.now }
    ensures { IsTrue result ↔ (map (λ a. slice_index labels.now a) left.now
        ≡ map (λ a. slice_index labels.now a) right.now) }
{
    if left.len() != right.len() {
        return false;
    }
    for (at, term) in left.iter().enumerate() {
        if labels[*term as usize] != labels[right[at] as usize] {
            return false;
        }
    }
    true
}

impl State {
    /// Whether a term comes after another, and both are applications of one head with the same arguments.
    fn is_partner(&self, left: u64, right: u64) -> bool
        requires shaped { IsShaped (core_of self.now) }
        requires left_in { left < length self.now.known }
        requires right_in { right < length self.now.known }
        ensures { IsTrue result ↔ IsPartner (core_of self.now) left right }
    {
        let (one, other) = (
            self.known.key(left as usize),
            self.known.key(right as usize),
        );
        if right <= left {
            return false;
        }
        if one.args.is_empty() {
            return false;
        }
        if one.head == other.head {
            return same_args(&self.labels, &one.args, &other.args);
        }
        false
    }
}

/// The next partner of a term on a walk.
fn next_partner(state: &State, left: u64, walk: &mut RingWalk<'_>) -> Option<u64>
    requires shaped { IsShaped (core_of state.now) }
    requires left_in { left < length state.now.known }
    requires within { (j : ℕ) → 0 < times j walk.old → j < length state.now.known }
    ensures some { IfSome result (λ j. partners (core_of state.now) left walk.old
        ≡ pair left j ∷ partners (core_of state.now) left walk.new) }
    ensures none { IfNone result (partners (core_of state.now) left walk.old ≡ []) }
    ensures within { (j : ℕ) → 0 < times j walk.new → j < length state.now.known }
{
    while let Some(right) = walk.next() {
        if state.is_partner(left, right) {
            return Some(right);
        }
    }
    None
}

/// The walk that is under way, or that round the ring of a term.
fn walk_on<'a>(state: &'a State, left: u64, walk: Option<RingWalk<'a>>) -> RingWalk<'a>
    requires shaped { IsShaped (core_of state.now) }
    requires left_in { left < length state.now.known }
    requires under_way { IsUnderWay (core_of state.now) left walk }
    ensures pairs { left_pairs (core_of state.now) left walk.entry ≡ partners (core_of state.now) left result
        ++ pairs_on (core_of state.now) (length state.now.known - suc left) (suc left) }
    ensures within { (j : ℕ) → 0 < times j result → j < length state.now.known }
{
    match walk {
        Some(walk) => walk,
        None => state.rings.walk(left),
    }
}

/// The next pair, of the term that has been reached or of one behind it.
fn next_pair<'a>(
    state: &'a State,
    count: u64,
    left: &mut u64,
    walk: &mut Option<RingWalk<'a>>,
) -> Option<Pair>
    requires shaped { IsShaped (core_of state.now) }
    requires count { count ≡ length state.now.known }
    requires under_way { IsUnderWay (core_of state.now) left.old walk.old }
    ensures some { IfSome result (λ p. left_pairs (core_of state.now) left.old walk.old
        ≡ p ∷ left_pairs (core_of state.now) left.new walk.new) }
    ensures none { IfNone result ((left_pairs (core_of state.now) left.old walk.old ≡ [])
        × (left_pairs (core_of state.now) left.new walk.new ≡ [])) }
    ensures under_way { IsUnderWay (core_of state.now) left.new walk.new }
{
    while *left < count {
        let mut on = walk_on(state, *left, walk.take());
        if let Some(right) = next_partner(state, *left, &mut on) {
            let pair = Pair { left: *left, right };
            *walk = Some(on);
            return Some(pair);
        }
        *left += 1;
    }
    None
}

impl<'a> Iterator for Implied<'a> {
    type Item = Pair;

    ghost next_gives = { YieldsFirst (λ p. p) };

    ghost remaining = { item_count (λ p. p) };

    fn next(&mut self) -> Option<Pair> {
        next_pair(self.state, self.count, &mut self.left, &mut self.walk)
    }
}
