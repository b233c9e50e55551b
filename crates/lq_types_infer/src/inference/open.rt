// The definitions whose types may have variables.
ghost use Rattle.std.specs.Prelude.{◌≡◌, ℕ, ◌+◌, ◌<◌, ◌≤◌, [], length, slice_index_or, false, IfOk, OnOk};
ghost use Rattle.lq_types_unify.specs.Knowing.{Knows};
ghost use Rattle.lq_types_unify.specs.Opens.{IsIn};
ghost use Rattle.lq_types_rules.specs.Equations.Adding.{IsSystem, count_of};
ghost use Rattle.lq_types_infer.specs.Inference.Copying.{IsDetermined};
ghost use Rattle.lq_types_infer.specs.Inference.Opening.{IsSifted};

use lq_types_rules::equations::System;
use lq_types_unify::Solver;
use std::alloc::{AllocError, Global};

/// Of the definitions that aren't generalised the places of those whose types may have variables, among the first so many.
#[derive(Drop)]
pub(crate) struct Opened {
    pub told: usize,
    pub places: Vec<usize>,
}

/// Places that are kept, and the slots that are asked.
#[derive(Drop)]
pub(crate) struct Sifted {
    pub kept: Vec<usize>,
    pub asked: Vec<u32>,
}

/// Whether a node's type may have variables.
pub(crate) fn may_vary(
    alloc: Global,
    system: &System,
    solver: &mut Solver,
    node: u32,
) -> Result<bool, AllocError>
    requires system { IsSystem system.now }
    requires knows { Knows system.now.arena system.now.equations.items solver.old }
    requires node { node < count_of system.now }
    ensures knows { OnOk result (Knows system.now.arena system.now.equations.items solver.new) }
    ensures determined { IfOk result (λ varies. varies ≡ false → IsDetermined system.now [] node) }
{
    let classes = solver.open_classes(alloc, &system.arena, &[node])?;
    if classes.is_empty() {
        return Ok(false);
    }
    Ok(true)
}

// More places, from one up to another.
fn add_places(places: &mut Vec<usize>, from: usize, to: usize) -> Result<(), AllocError>
    ensures kept { OnOk result ((j : ℕ) → IsIn places.old.items j → IsIn places.new.items j) }
    ensures more { OnOk result ((j : ℕ) → from ≤ j → j < to → IsIn places.new.items j) }
{
    for at in from..to {
        places.push(at)?;
    }
    Ok(())
}

impl Opened {
    /// The definitions before this one are told.
    pub(crate) fn tell(&mut self, before: usize) -> Result<(), AllocError>
        ensures told { OnOk result (before ≤ self.new.told) }
        ensures low { OnOk result ((m : ℕ) → before ≤ m → self.old.told ≤ m → self.new.told ≤ m) }
        ensures kept { OnOk result ((j : ℕ) → IsIn self.old.places.items j → IsIn self.new.places.items j) }
        ensures more { OnOk result ((j : ℕ) → self.old.told ≤ j → j < self.new.told → IsIn self.new.places.items j) }
    {
        let from = self.told;
        if before <= from {
            return Ok(());
        }
        add_places(&mut self.places, from, before)?;
        self.told = before;
        Ok(())
    }
}

/// Of these places those whose definitions may have variables, and their slots where they come before a place.
pub(crate) fn sift(
    alloc: Global,
    system: &System,
    solver: &mut Solver,
    nodes: u32,
    plain: &[u32],
    places: &[usize],
    before: usize,
) -> Result<Sifted, AllocError>
    requires system { IsSystem system.now }
    requires knows { Knows system.now.arena system.now.equations.items solver.old }
    requires before { before ≤ length plain.now }
    requires within { (j : ℕ) → j < before → nodes + slice_index_or plain.now j 0 < count_of system.now }
    ensures knows { OnOk result (Knows system.now.arena system.now.equations.items solver.new) }
    ensures sifted { IfOk result (λ r. IsSifted nodes system.now plain.now before places.now r.kept.items r.asked.items) }
{
    let mut kept = Vec::new(alloc);
    let mut asked = Vec::new(alloc);
    for at in places {
        if *at >= before {
            kept.push(*at)?;
            continue;
        }
        let slot = nodes + plain[*at];
        if !may_vary(alloc, system, solver, slot)? {
            continue;
        }
        kept.push(*at)?;
        asked.push(slot)?;
    }
    Ok(Sifted { kept, asked })
}
