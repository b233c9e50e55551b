// Classes for equations.
ghost use Rattle.std.specs.Prelude.{◌≡◌, ◌≢◌, ℕ, ◌+◌, ◌<◌, ◌≤◌, ◌^◌, List, [], ◌∷◌, ◌++◌, length, OnOk, IfOk, IsSome, true, false, slice_index, take, All};
ghost use Rattle.lq_types_unify.specs.declared.arena.Equation.{Equation};
ghost use Rattle.lq_types_unify.specs.Simple.{Simple};
ghost use Rattle.lq_types_unify.specs.Nodes.{form_at, IsArena};
ghost use Rattle.lq_types_unify.specs.Solution.{Fits, HasNoSolution, AreNodes};
ghost use Rattle.lq_types_unify.specs.Classes.{up, root, IsDown, IsSame, IsState, AreBetween, AreFollowed, IsKnown};

use crate::arena::{Arena, Equation};
use crate::classes::{join, settle};
use std::alloc::{AllocError, Global};

/// Each node in a class of its own.
pub(crate) fn apart(alloc: Global, count: usize) -> Result<Vec<u32>, AllocError>
    requires { count < 2 ^ 32 }
    ensures length { IfOk result (λ all. length all.items ≡ count) }
    ensures own { IfOk result (λ all. (i : ℕ) → up all.items i ≡ i) }
{
    let mut all = Vec::new(alloc);
    widen(&mut all, count)?;
    Ok(all)
}

/// So many nodes in all, each new one in a class of its own.
pub(crate) fn widen(table: &mut Vec<u32>, count: usize) -> Result<(), AllocError>
    requires { count < 2 ^ 32 }
    ensures length { OnOk result (length table.old.items ≤ count → length table.new.items ≡ count) }
    ensures same { (i : ℕ) → up table.new.items i ≡ up table.old.items i }
{
    for node in table.len()..count {
        table.push(node as u32)?;
    }
    Ok(())
}

/// Makes one class of the two sides of each equation, and of what follows from it. False where there is no solution.
pub(crate) fn merge(
    arena: &Arena,
    parents: &mut [u32],
    shapes: &mut [u32],
    found: &mut Vec<Equation>,
    equations: &[Equation],
) -> Result<bool, AllocError>
    requires arena { IsArena arena.now }
    requires nodes { AreNodes (length arena.now.nodes.items) equations.now }
    requires state { IsState (form_at arena.now) (length arena.now.nodes.items) parents.old shapes.old
        found.old.items }
    requires followed { AreFollowed (form_at arena.now) parents.old found.old.items }
    ensures known { IfOk result (λ yes. yes ≡ true → (before : List Equation) → IsKnown (form_at arena.now)
        (length arena.now.nodes.items) parents.old shapes.old found.old.items before → IsKnown (form_at
        arena.now) (length arena.now.nodes.items) parents.new shapes.new found.new.items (before ++
        equations.now)) }
    ensures stands { (before : List Equation) → IsKnown (form_at arena.now) (length arena.now.nodes.items)
        parents.old shapes.old found.old.items before → AreBetween (form_at arena.now) (length
        arena.now.nodes.items) parents.new shapes.new found.new.items before (before ++ equations.now) }
    ensures clash { IfOk result (λ yes. yes ≡ false → (before : List Equation) → IsKnown (form_at arena.now)
        (length arena.now.nodes.items) parents.old shapes.old found.old.items before → HasNoSolution
        (form_at arena.now) (before ++ equations.now)) }
{
    let followed = found.len();
    for equation in equations {
        join(arena, parents, shapes, found, equation.left, equation.right)?;
    }
    settle(arena, parents, shapes, found, followed)
}

/// Makes each node's parent its root.
pub(crate) fn flatten(parents: &mut [u32])
    requires { IsDown parents.old }
    ensures classes { IsSame parents.old parents.new }
    ensures flat { (i : ℕ) → up parents.new i ≡ root parents.old i }
{
    for at in 0..parents.len() {
        let over = parents[parents[at] as usize];
        parents[at] = over;
    }
}
