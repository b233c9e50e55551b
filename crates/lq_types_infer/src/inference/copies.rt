// The types of generalised definitions' uses: copies of the definitions' types, or these themselves where no variable is replaced.
ghost use Rattle.std.specs.Prelude.{◌≡◌, ℕ, ◌<◌, ◌≤◌, ◌⊎◌, List, [], ◌∷◌, ◌++◌, All, length, slice_index_or, OnOk, true, false};
ghost use Rattle.lq_types_unify.specs.Knowing.{Knows};
ghost use Rattle.lq_types_unify.specs.Opens.{IsIn};
ghost use Rattle.lq_types_rules.specs.Equations.Adding.{IsSystem, count_of};
ghost use Rattle.lq_types_infer.specs.Inference.Copying.{AreClear, AreMarked, IsDetermined, AddsUse};

use lq_types_rules::equations::System;
use lq_types_unify::{Equation, Solver};
use std::alloc::{AllocError, Global};

// A table of so many, or more.
fn widen(weak: &mut Vec<bool>, count: usize) -> Result<(), AllocError>
    ensures long { OnOk result (count ≤ length weak.new.items) }
    ensures clear { OnOk result (AreClear weak.old.items → AreClear weak.new.items) }
{
    for _ in weak.len()..count {
        weak.push(false)?;
    }
    Ok(())
}

// These classes are marked.
fn mark(weak: &mut [bool], classes: &[u32])
    requires inside { All (λ r. r < length weak.old) classes.now }
    requires clear { AreClear weak.old }
    ensures marked { AreMarked weak.new classes.now }
{
    for class in classes {
        weak[*class as usize] = true;
    }
}

// These classes aren't marked any more.
fn unmark(weak: &mut [bool], classes: &[u32])
    requires inside { All (λ r. r < length weak.old) classes.now }
    requires marked { AreMarked weak.old classes.now }
    ensures clear { AreClear weak.new }
{
    for class in classes {
        weak[*class as usize] = false;
    }
}

// Whether all of these classes are marked.
fn are_marked(weak: &[bool], classes: &[u32]) -> bool
    requires inside { All (λ r. r < length weak.now) classes.now }
    ensures marked { result ≡ true → All (λ r. slice_index_or weak.now r false ≡ true) classes.now }
    ensures every { All (λ r. slice_index_or weak.now r false ≡ true) classes.now → result ≡ true }
{
    for class in classes {
        if !weak[*class as usize] {
            return false;
        }
    }
    true
}

/// A node has the type of a definition.
pub(crate) fn add_same(system: &mut System, definition: u32, node: u32) -> Result<(), AllocError>
    ensures arena { OnOk result (system.new.arena ≡ system.old.arena) }
    ensures equations { OnOk result (system.new.equations.items
        ≡ system.old.equations.items ++ (record { left = node; right = definition }) ∷ []) }
{
    system.equations.push(Equation {
        left: node,
        right: definition,
    })?;
    Ok(())
}

/// A node has the type of a copy of a definition's, with other types for its variables, but not for those that these slots' types have:
/// the classes that are open there are marked while it is copied. Slots whose types have no variables may be left out. Where all open
/// classes of the definition are marked the copy would be the definition's own type again, so the node has this, and nothing is copied.
pub(crate) fn add_use(
    alloc: Global,
    system: &mut System,
    solver: &mut Solver,
    weak: &mut Vec<bool>,
    asked: &[u32],
    definition: u32,
    node: u32,
) -> Result<(), AllocError>
    requires system { IsSystem system.old }
    requires knows { Knows system.old.arena system.old.equations.items solver.old }
    requires clear { AreClear weak.old.items }
    requires asked { All (λ i. i < count_of system.old) asked.now }
    requires definition { definition < count_of system.old }
    requires node { node < count_of system.old }
    ensures clear { OnOk result (AreClear weak.new.items) }
    ensures knows { OnOk result (Knows system.new.arena system.old.equations.items solver.new) }
    ensures added { OnOk result ((fixed : List ℕ) → All (λ i. i < count_of system.old) fixed
        → All (IsIn fixed) asked.now → All (λ i. IsIn asked.now i ⊎ IsDetermined system.old [] i) fixed
        → AddsUse system.old system.new fixed definition node) }
{
    let varying = solver.open_classes(alloc, &system.arena, &[definition])?;
    let open = solver.open_classes(alloc, &system.arena, asked)?;
    widen(weak, system.arena.nodes.len())?;
    mark(weak, &open);
    if are_marked(weak, &varying) {
        unmark(weak, &open);
        return add_same(system, definition, node);
    }
    let used = solver.copy(alloc, &mut system.arena, weak, definition)?;
    unmark(weak, &open);
    system.equations.push(Equation {
        left: node,
        right: used,
    })?;
    Ok(())
}
