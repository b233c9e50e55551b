// Whether equations have a solution, and the most general one.
ghost use Rattle.std.specs.Prelude.{◌≡◌, ℕ, ◌+◌, ◌<◌, ◌≤◌, ◌^◌, List, [], length, OnOk, IfOk, IfSome, IfNone, true, false};
ghost use Rattle.lq_types_unify.specs.Nodes.{form_at, IsArena};
ghost use Rattle.lq_types_unify.specs.Solution.{AreNodes, IsPrincipal, HasNoSolution, HasSolution, IsFirstFailing};
ghost use Rattle.lq_types_unify.specs.Solved.{types_of, HasOrder};

use crate::arena::{Arena, Equation};
use crate::solver::{Solution, Solver};
use std::alloc::{AllocError, Global};

/// The most general solution, or None where there is no solution.
pub fn solve(
    alloc: Global,
    arena: &Arena,
    equations: &[Equation],
) -> Result<Option<Solution>, AllocError>
    requires arena { IsArena arena.now }
    requires nodes { AreNodes (length arena.now.nodes.items) equations.now }
    ensures principal { IfOk result (λ found. IfSome found (λ s. IsPrincipal (form_at arena.now)
        equations.now (types_of arena.now s))) }
    ensures ordered { IfOk result (λ found. IfSome found (HasOrder arena.now)) }
    ensures none { IfOk result (λ found. IfNone found (HasNoSolution (form_at arena.now) equations.now)) }
{
    let mut solver = Solver::new(alloc, arena)?;
    if !solver.merge(arena, equations, 0)? {
        return Ok(None);
    }
    let found = solver.solution(alloc, arena)?;
    Ok(found)
}

/// How many equations, from the first on, have no solution, where fewer have one; None where all have one.
pub fn first_failing(
    alloc: Global,
    arena: &Arena,
    equations: &[Equation],
) -> Result<Option<usize>, AllocError>
    requires arena { IsArena arena.now }
    requires nodes { AreNodes (length arena.now.nodes.items) equations.now }
    ensures first { IfOk result (λ found. IfSome found (IsFirstFailing (form_at arena.now) equations.now)) }
    ensures none { IfOk result (λ found. IfNone found (HasSolution (form_at arena.now) equations.now)) }
{
    if is_solvable(alloc, arena, equations)? {
        return Ok(None);
    }
    let mut low = 0;
    let mut high = equations.len();
    'halves: while low < high {
        let middle = low + (high - low) / 2;
        if is_solvable(alloc, arena, &equations[..middle])? {
            low = middle + 1;
        } else {
            high = middle;
        }
    }
    Ok(Some(high))
}

/// Whether there is a solution.
fn is_solvable(alloc: Global, arena: &Arena, equations: &[Equation]) -> Result<bool, AllocError>
    requires arena { IsArena arena.now }
    requires nodes { AreNodes (length arena.now.nodes.items) equations.now }
    ensures yes { IfOk result (λ yes. yes ≡ true → HasSolution (form_at arena.now) equations.now) }
    ensures no { IfOk result (λ yes. yes ≡ false → HasNoSolution (form_at arena.now) equations.now) }
{
    match solve(alloc, arena, equations)? {
        Some(_) => Ok(true),
        None => Ok(false),
    }
}
