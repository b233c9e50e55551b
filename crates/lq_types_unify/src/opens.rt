// The open classes that nodes reach.
ghost use Rattle.std.specs.Prelude.{◌≡◌, ℕ, ◌+◌, ◌-◌, ◌<◌, ◌≤◌, List, All, length, slice_index_or, OnOk, IfOk};
ghost use Rattle.lq_types_unify.specs.declared.arena.Equation.{Equation};
ghost use Rattle.lq_types_unify.specs.Nodes.{form_at, IsArena};
ghost use Rattle.lq_types_unify.specs.Classes.{up};
ghost use Rattle.lq_types_unify.specs.Knowing.{Knows, KeepsClasses};
ghost use Rattle.lq_types_unify.specs.Opens.{AreOpenOf, AreOpens};

use crate::arena::Arena;
use crate::classes::is_made;
use crate::reaching::reach;
use crate::solver::Solver;
use std::alloc::{AllocError, Global};

/// The classes that are open.
fn open_of(
    alloc: Global,
    arena: &Arena,
    shapes: &[u32],
    classes: &[u32],
) -> Result<Vec<u32>, AllocError>
    requires inside { (k : ℕ) → k < length classes.now → slice_index_or classes.now k 0 < length shapes.now }
    requires shapes { (i : ℕ) → i < length shapes.now → up shapes.now i < length arena.now.nodes.items }
    ensures { IfOk result (λ all. AreOpenOf (form_at arena.now) shapes.now classes.now all.items) }
{
    let mut all = Vec::new(alloc);
    for class in classes {
        if !is_made(arena, shapes[*class as usize]) {
            all.push(*class)?;
        }
    }
    Ok(all)
}

/// The classes that were listed have low numbers again.
fn restore(copies: &mut [u32], classes: &[u32])
    requires inside { (k : ℕ) → k < length classes.now → slice_index_or classes.now k 0 < length copies.old }
    requires back { (r : ℕ) → r < length copies.old → length copies.old ≤ up copies.old r
        → (up copies.old r < length copies.old + length classes.now)
        × (slice_index_or classes.now (up copies.old r - length copies.old) 0 ≡ r) }
    ensures length { length copies.new ≡ length copies.old }
    ensures low { (i : ℕ) → i < length copies.old → up copies.new i < length copies.old }
{
    for class in classes {
        copies[*class as usize] = *class;
    }
}

impl Solver {
    /// The open classes that nodes reach, each by its root and once. It costs what the nodes' types have.
    pub fn open_classes(
        &mut self,
        alloc: Global,
        arena: &Arena,
        nodes: &[u32],
    ) -> Result<Vec<u32>, AllocError>
        requires arena { IsArena arena.now }
        requires inside { All (λ i. i < length arena.now.nodes.items) nodes.now }
        requires knows { (equations : List Equation) × Knows arena.now equations self.old }
        ensures open { IfOk result (λ all. AreOpens (form_at arena.now) self.old.parents.items
            self.old.shapes.items nodes.now all.items) }
        ensures inside { IfOk result (λ all. All (λ r. r < length arena.now.nodes.items) all.items) }
        ensures knows { OnOk result ((equations : List Equation) → Knows arena.now equations self.old
            → Knows arena.now equations self.new) }
        ensures stands { KeepsClasses self.old self.new }
    {
        let classes = reach(
            alloc,
            arena,
            &mut self.parents,
            &self.shapes,
            &mut self.copies,
            &[],
            nodes,
        )?;
        let all = open_of(alloc, arena, &self.shapes, &classes)?;
        restore(&mut self.copies, &classes);
        Ok(all)
    }
}
