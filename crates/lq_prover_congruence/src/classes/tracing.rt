// Ways from one term to another along the edges of a forest.
ghost use Rattle.std.specs.Prelude.{◌≡◌, ℕ, Option, None, IsTrue, false, [], ◌∷◌, ◌++◌, map, IfOk};
ghost use Rattle.lq_prover_congruence.specs.Classes.Forest.{edges_of, AreJoined, AreRooted};
ghost use Rattle.lq_prover_congruence.specs.declared.classes.forest.Edge.{Edge as AnEdge};
ghost use Rattle.lq_prover_congruence.specs.Classes.Ways.{IsClimb, IsWay, Meets};

use crate::classes::forest::Forest;
use std::alloc::{AllocError, Global};

/// A term that has an edge, and the reason of the edge.
#[derive(Clone, Copy, PartialEq)]
pub(crate) struct Hop {
    pub(crate) term: u64,
    pub(crate) reason: u64,
}

/// Takes the last hop off where it is this one.
fn take_hop(hops: &mut Vec<Hop>, hop: Hop) -> bool
    ensures taken { IsTrue result → hops.old.items ≡ hops.new.items ++ hop ∷ [] }
    ensures stays { (result ≡ false) → hops.new.items ≡ hops.old.items }
{
    if hops.last() != Some(&hop) {
        return false;
    }
    hops.pop();
    true
}

/// Takes off what two climbs have in common at their ends.
fn part(left: &mut Vec<Hop>, right: &mut Vec<Hop>)
    ensures { (f : ℕ → Option AnEdge) (a b : ℕ) → Meets f a left.old.items b right.old.items
        → Meets f a left.new.items b right.new.items }
{
    while let Some(hop) = left.last().copied() {
        if !take_hop(right, hop) {
            break;
        }
        left.pop();
    }
}

impl Forest {
    /// The edges from a term up to its root.
    fn climb(&self, alloc: Global, term: u64) -> Result<Vec<Hop>, AllocError>
        requires { AreRooted (edges_of self.now.toward.items) }
        ensures { IfOk result (λ hops. (r : ℕ) × IsClimb (edges_of self.now.toward.items) term hops.items r
            × (edges_of self.now.toward.items r ≡ None)) }
    {
        let mut hops = Vec::new(alloc);
        let mut at = term;
        while let Some(edge) = self.edge(at) {
            hops.push(Hop {
                term: at,
                reason: edge.reason,
            })?;
            at = edge.to;
        }
        Ok(hops)
    }

    /// The reasons of edges that lead from one term to another of its tree.
    pub(crate) fn way(&self, alloc: Global, from: u64, to: u64) -> Result<Vec<u64>, AllocError>
        requires rooted { AreRooted (edges_of self.now.toward.items) }
        requires joined { AreJoined (edges_of self.now.toward.items) from to }
        ensures { IfOk result (λ reasons. IsWay (edges_of self.now.toward.items) from to reasons.items) }
    {
        let mut up = self.climb(alloc, from)?;
        let mut down = self.climb(alloc, to)?;
        part(&mut up, &mut down);
        let mut reasons = Vec::new(alloc);
        for hop in &up {
            reasons.push(hop.reason)?;
        }
        while let Some(hop) = down.pop() {
            reasons.push(hop.reason)?;
        }
        Ok(reasons)
    }
}
