// Circular lists, each index with the one after it.
ghost use Rattle.std.specs.Prelude.{◌≡◌, ◌≢◌, ◌⊎◌, ◌↔◌, ℕ, ◌+◌, ◌<◌, List, [], ◌∷◌, ◌++◌, length, swap, IfOk, OnOk, OnErr, IsTrue};
ghost use Rattle.lq_prover_congruence.specs.Ring.Ring.{IsRings, IsTogether, alone, times};

use crate::ring::walk::RingWalk;
use std::alloc::{AllocError, Global};
use std::marker::Model;

/// Rings of the indexes below a number. Seen as the list that has for each index the one after it;
/// `IsRings` says which lists are the rings.
#[derive(Drop)]
pub struct Rings {
    next: Vec<u64>,
}

impl Model for Rings {
    ghost use Rattle.std.specs.Prelude.{ℕ, List};
    ghost use Rattle.lq_prover_congruence.specs.Ring.Ring.{IsRings};

    ghost Value = { List ℕ };

    ghost view = { λ r. r.next.items };

    ghost invariant = { λ r. (rs : List (List ℕ)) × IsRings r.next.items rs };
}

impl Rings {
    /// Rings of one index each.
    pub fn new(alloc: Global, n: u64) -> Result<Rings, AllocError>
        ensures len { IfOk result (λ rings. length rings ≡ n) }
        ensures alone { IfOk result (λ rings. IsRings rings (alone n)) }
    {
        let mut rings = Rings {
            next: Vec::with_capacity(alloc, n as usize)?,
        };
        for _ in 0..n {
            rings.push()?;
        }
        Ok(rings)
    }

    /// Adds a ring of one index, and gives the index.
    pub fn push(&mut self) -> Result<u64, AllocError>
        ensures index { IfOk result (λ index. index ≡ length self.old) }
        ensures links { OnOk result (self.new ≡ self.old ++ length self.old ∷ []) }
        ensures rings { OnOk result ((rs : List (List ℕ)) → IsRings self.old rs
            → IsRings self.new ((length self.old ∷ []) ∷ rs)) }
        ensures together { OnOk result ((i j : ℕ) → IsTogether self.new i j
            ↔ (IsTogether self.old i j ⊎ ((i ≡ length self.old) × (j ≡ i)))) }
        ensures refused { OnErr result (self.new ≡ self.old) }
    {
        let index = self.len();
        self.next.push(index)?;
        Ok(index)
    }

    /// Takes back the last index, which is in a ring of its own.
    pub fn pop(&mut self)
        requires { (before : List ℕ) × (self.old ≡ before ++ length before ∷ []) }
        ensures { self.old ≡ self.new ++ length self.new ∷ [] }
    {
        self.next.pop();
    }

    /// How many indexes there are.
    pub fn len(&self) -> u64
        ensures len { result ≡ length self.now }
        ensures rings { (rs : List (List ℕ)) × IsRings self.now rs }
    {
        self.next.len() as u64
    }

    /// Joins two rings: after `a` comes what came after `b`, and the other way round.
    pub fn splice(&mut self, a: u64, b: u64)
        requires a_in { a < length self.old }
        requires b_in { b < length self.old }
        requires apart { IsTogether self.old a b → ⊥ }
        ensures rings { (p q : List ℕ) (rs : List (List ℕ)) → IsRings self.old ((a ∷ p) ∷ (b ∷ q) ∷ rs)
            → IsRings self.new ((a ∷ q ++ b ∷ p) ∷ rs) }
        ensures together { (i j : ℕ) → IsTogether self.new i j
            ↔ (IsTogether self.old i j ⊎ ((IsTogether self.old i a × IsTogether self.old b j)
            ⊎ (IsTogether self.old i b × IsTogether self.old a j))) }
        ensures links { self.new ≡ swap self.old a b }
        ensures len { length self.new ≡ length self.old }
    {
        self.next.swap(a as usize, b as usize);
    }

    /// Splits a ring in two, of which one begins after `a` and ends with `b`, and the other the other way
    /// round. What `splice` did with the same two indexes is undone.
    pub fn split_after(&mut self, a: u64, b: u64)
        requires differ { a ≢ b }
        requires together { IsTogether self.old a b }
        ensures rings { (p q : List ℕ) (rs : List (List ℕ)) → IsRings self.old ((a ∷ q ++ b ∷ p) ∷ rs)
            → IsRings self.new ((a ∷ p) ∷ (b ∷ q) ∷ rs) }
        ensures undoes { (before : List ℕ) → self.old ≡ swap before a b → self.new ≡ before }
        ensures links { self.new ≡ swap self.old a b }
        ensures len { length self.new ≡ length self.old }
    {
        let (a, b) = (a as usize, b as usize);
        self.next.swap(a, b);
    }

    /// Whether two indexes are in one ring. It walks round the ring of `a`.
    pub fn is_together(&self, a: u64, b: u64) -> bool
        requires { a < length self.now }
        ensures { IsTrue result ↔ IsTogether self.now a b }
    {
        self.walk(a).any(|index| index == b)
    }

    /// The ring of `a`, from `a` on.
    pub fn walk(&self, a: u64) -> RingWalk<'_>
        requires { a < length self.now }
        ensures ring { (p : List ℕ) × (rs : List (List ℕ)) × (result ≡ a ∷ p)
            × IsRings self.now ((a ∷ p) ∷ rs) }
        ensures members { (j : ℕ) → (0 < times j result) ↔ IsTogether self.now a j }
        ensures within { (j : ℕ) → 0 < times j result → j < length self.now }
    {
        RingWalk {
            next: &self.next,
            first: a,
            at: Some(a),
        }
    }
}
