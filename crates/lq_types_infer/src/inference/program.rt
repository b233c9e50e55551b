// The first visits of a program, and the first of them whose rule can't hold.
ghost use Rattle.std.specs.Prelude.{◌≡◌, ◌<◌, ◌≤◌, ◌∷◌, List, drop, length, IfOk};
ghost use Rattle.lq_base_names.specs.declared.name.Binder.{Binder};
ghost use Rattle.lq_text_tree.specs.Items.{items_view};
ghost use Rattle.lq_text_walk.specs.Walk.Pending.{visit_view};
ghost use Rattle.lq_text_walk.specs.Walk.Visits as plain;
ghost use Rattle.lq_text_walk.specs.Walk.Visits.{visits_of_items};
ghost use Rattle.lq_types_infer.specs.Inference.Programs.{visits_in, IsReady, Cannot, IsAttempt, IsFailing};
ghost use Rattle.lq_types_rules.specs.Typings.Fronts.{left_at, left_in};
ghost use Rattle.lq_types_rules.specs.Typings.Inference.{place_at};

use crate::inference::equations::{Equations, Inferred};
use crate::inference::laws::steps_say_the_rules;
use lq_base_names::Place;
use lq_text_tree::{Binder, Item};
use lq_text_walk::walk::{Visit, Walk};
use lq_types_rules::equations::Constructors;
use std::alloc::{AllocError, Global};

/// A program with its constructors, the number of its nodes, and that of its nodes and binders.
#[derive(Drop)]
pub(crate) struct Program<'a> {
    pub items: &'a [Item<Binder>],
    pub constructors: Constructors,
    pub nodes: u32,
    pub slots: usize,
}

/// The equations of a program's first visits, or how many of these have rules that can't hold together.
#[derive(Drop)]
pub(crate) enum Attempt {
    Solved(Inferred),
    Failed(usize),
}

/// How many nodes a program has, and how many visits a walk over it.
#[derive(Clone, Copy)]
pub(crate) struct Counts {
    pub nodes: u32,
    pub visits: usize,
}

// How many nodes are left here.
fn left_here(visit: Visit<'_, Binder>) -> u32
    ensures { result ≡ length (left_at (visit_view Binder (λ b. b.0) visit.entry)) }
{
    match visit {
        Visit::Leave(_) | Visit::LeaveFunction(_) => 1,
        _ => 0,
    }
}

/// The numbers of a program's nodes and visits. Past 2^32 nodes it answers that there is no memory.
pub(crate) fn counts_of(alloc: Global, items: &[Item<Binder>]) -> Result<Counts, AllocError>
    ensures nodes { IfOk result (λ c. c.nodes
        ≡ length (left_in (visits_of_items (items_view Binder (λ b. b.0) items.now)))) }
    ensures visits { IfOk result (λ c. c.visits
        ≡ length (visits_of_items (items_view Binder (λ b. b.0) items.now))) }
{
    let mut nodes: u32 = 0;
    let mut visits: usize = 0;
    let mut walk = Walk::of_items(alloc, items)?;
    while let Some(visit) = walk.next()? {
        nodes = nodes.checked_add(left_here(visit)).ok_or(AllocError)?;
        visits = visits.checked_add(1).ok_or(AllocError)?;
    }
    Ok(Counts { nodes, visits })
}

// The place of what is left here.
fn place_here(visit: Visit<'_, Binder>) -> Option<Place>
    ensures { result ≡ place_at (visit_view Binder (λ b. b.0) visit.entry) }
{
    match visit {
        Visit::LeaveItem(item) => Some(item.place),
        Visit::Leave(node) => Some(node.place),
        Visit::LeaveFunction(function) => Some(function.place),
        _ => None,
    }
}

impl Program<'_> {
    /// The equations of the first so many visits with their most general solution, if they have one.
    pub(crate) fn attempt(&self, alloc: Global, limit: usize) -> Result<Attempt, AllocError>
        requires ready { IsReady self.now }
        requires limit { limit ≤ length (visits_in self.now) }
        ensures { IfOk result (λ a. IsAttempt self.now limit a) }
    {
        steps_say_the_rules();
        let mut equations = Equations::new(alloc, self.slots)?;
        let mut walk = Walk::of_items(alloc, self.items)?;
        for taken in 0..limit {
            let visit = walk.next()?.unwrap();
            match equations.with_visit(alloc, &self.constructors, self.nodes, visit)? {
                Some(more) => equations = more,
                None => return Ok(Attempt::Failed(taken + 1)),
            }
        }
        match equations.solved(alloc)? {
            Some(inferred) => Ok(Attempt::Solved(inferred)),
            None => Ok(Attempt::Failed(limit)),
        }
    }

    /// How many visits come before the first one whose rule can't hold beside theirs, where those of so many can't hold together.
    pub(crate) fn first_failing(&self, alloc: Global, failed: usize) -> Result<usize, AllocError>
        requires ready { IsReady self.now }
        requires failed { failed ≤ length (visits_in self.now) }
        requires cannot { Cannot self.now failed }
        ensures { IfOk result (λ n. IsFailing self.now n) }
    {
        let mut low = 0;
        let mut high = failed;
        'halves: while high - low > 1 {
            let middle = low + (high - low) / 2;
            match self.attempt(alloc, middle)? {
                Attempt::Solved(_) => low = middle,
                Attempt::Failed(count) => high = count,
            }
        }
        Ok(low)
    }

    /// The place of what is left at a visit, if anything is.
    pub(crate) fn place_of(&self, alloc: Global, at: usize) -> Result<Option<Place>, AllocError>
        requires { at < length (visits_in self.now) }
        ensures { IfOk result (λ found. (v : plain.Visit) (later : List plain.Visit)
            → drop at (visits_in self.now) ≡ v ∷ later → found ≡ place_at v) }
    {
        let mut walk = Walk::of_items(alloc, self.items)?;
        for _ in 0..at {
            walk.next()?;
        }
        let visit = walk.next()?.unwrap();
        Ok(place_here(visit))
    }
}
