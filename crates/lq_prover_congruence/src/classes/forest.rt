// The merges that made terms the same, as a forest.
ghost use Rattle.std.specs.Prelude.{◌≡◌, ℕ, suc, ◌<◌, ◌≤◌, [], ◌∷◌, ◌++◌, length, Some, IfOk, IfSome, IfNone, OnOk, OnErr};
ghost use Rattle.lq_prover_congruence.specs.Classes.Forest.{edges_of, IsLog, AreRooted, AreApart, Follows, Stays, Links, Writes};

use std::alloc::{AllocError, Global};

/// An edge to another term, for the reason of a merge.
#[derive(Clone, Copy)]
pub(crate) struct Edge {
    pub(crate) to: u64,
    pub(crate) reason: u64,
}

/// The edge of a term before a step gave it another one.
#[derive(Clone, Copy)]
pub(crate) struct Written {
    pub(crate) step: u64,
    pub(crate) term: u64,
    pub(crate) was: Option<Edge>,
}

/// Trees of merges. Each term has an edge towards the root of its tree.
#[derive(Drop)]
pub(crate) struct Forest {
    pub(crate) toward: Vec<Option<Edge>>,
    pub(crate) log: Vec<Written>,
}

impl Forest {
    /// No edges.
    pub(crate) fn new(alloc: Global) -> Forest
        ensures toward { result.toward.items ≡ [] }
        ensures log { result.log.items ≡ [] }
    {
        Forest {
            toward: Vec::new(alloc),
            log: Vec::new(alloc),
        }
    }

    /// The edge of a term.
    pub(crate) fn edge(&self, term: u64) -> Option<Edge>
        ensures { result ≡ edges_of self.now.toward.items term }
    {
        match self.toward.get(term as usize) {
            Some(edge) => *edge,
            None => None,
        }
    }

    /// Makes room for the edge of a term.
    fn reach(&mut self, term: u64) -> Result<(), AllocError>
        ensures stays { Stays self.old self.new }
        ensures ok { OnOk result (term < length self.new.toward.items) }
    {
        while self.toward.len() <= term as usize {
            self.toward.push(None)?;
        }
        Ok(())
    }

    /// Gives a term another edge. Gives the edge that it had.
    fn write(&mut self, step: u64, term: u64, edge: Edge) -> Result<Option<Edge>, AllocError>
        ensures ok { OnOk result (Writes self.old self.new step term edge) }
        ensures was { IfOk result (λ was. was ≡ edges_of self.old.toward.items term) }
        ensures err { OnErr result (Stays self.old self.new) }
    {
        self.reach(term)?;
        let was = self.toward[term as usize];
        self.log.push(Written { step, term, was })?;
        self.toward[term as usize] = Some(edge);
        Ok(was)
    }

    /// Turns the edges from a term to its root round, and gives it an edge into another tree.
    fn turn(&mut self, step: u64, from: u64, to: u64, reason: u64) -> Result<(), AllocError>
        requires log { IsLog step (length self.old.toward.items) self.old.log.items }
        requires rooted { AreRooted (edges_of self.old.toward.items) }
        requires apart { AreApart (edges_of self.old.toward.items) from to }
        ensures past { Follows step self.old self.new }
        ensures log { IsLog (suc step) (length self.new.toward.items) self.new.log.items }
        ensures ok { OnOk result (Links self.old self.new from to reason) }
    {
        let mut at = from;
        let mut edge = Edge { to, reason };
        while let Some(was) = self.write(step, at, edge)? {
            edge = Edge {
                to: at,
                reason: was.reason,
            };
            at = was.to;
        }
        Ok(())
    }

    /// Joins two trees by an edge.
    pub(crate) fn link(
        &mut self,
        step: u64,
        from: u64,
        to: u64,
        reason: u64,
    ) -> Result<(), AllocError>
        requires log { IsLog step (length self.old.toward.items) self.old.log.items }
        requires rooted { AreRooted (edges_of self.old.toward.items) }
        requires apart { AreApart (edges_of self.old.toward.items) from to }
        ensures past { Follows step self.old self.new }
        ensures ok { OnOk result (IsLog (suc step) (length self.new.toward.items) self.new.log.items
            × Links self.old self.new from to reason) }
        ensures err { OnErr result (IsLog step (length self.new.toward.items) self.new.log.items) }
    {
        if let Err(refused) = self.turn(step, from, to, reason) {
            self.back_to(step);
            return Err(refused);
        }
        Ok(())
    }

    /// Takes the last entry off the log where it is of this step or of a later one.
    fn take_late(&mut self, step: u64) -> Option<Written>
        ensures toward { self.new.toward ≡ self.old.toward }
        ensures some { IfSome result (λ last. (self.old.log.items ≡ self.new.log.items ++ last ∷ [])
            × (step ≤ last.step)) }
        ensures none { IfNone result ((self.new.log.items ≡ self.old.log.items)
            × ((n m : ℕ) → IsLog n m self.old.log.items → IsLog step m self.old.log.items)) }
    {
        let last = *self.log.last()?;
        if last.step < step {
            return None;
        }
        self.log.pop();
        Some(last)
    }

    /// Gives terms the edges that they had before the steps from this one on.
    pub(crate) fn back_to(&mut self, step: u64)
        requires { (n : ℕ) × IsLog n (length self.old.toward.items) self.old.log.items }
        ensures past { Follows step self.old self.new }
        ensures log { IsLog step (length self.new.toward.items) self.new.log.items }
    {
        while let Some(last) = self.take_late(step) {
            self.toward[last.term as usize] = last.was;
        }
    }
}
