// Classes that are kept while nodes and equations come.
ghost use Rattle.std.specs.Prelude.{◌≡◌, ℕ, ◌+◌, ◌<◌, ◌≤◌, ◌^◌, List, [], length, take, OnOk, IfOk, IfSome, IfNone, true, false};
ghost use Rattle.lq_types_unify.specs.declared.arena.Arena.{Arena};
ghost use Rattle.lq_types_unify.specs.declared.arena.Equation.{Equation};
ghost use Rattle.lq_types_unify.specs.Nodes.{form_at, IsArena};
ghost use Rattle.lq_types_unify.specs.Solution.{AreNodes, IsPrincipal, HasNoSolution, HasSolution};
ghost use Rattle.lq_types_unify.specs.Knowing.{IsLonger, Knows, IsBetween, KeepsClasses, IsOrdered, IsWidened, IsStretched};
ghost use Rattle.lq_types_unify.specs.Order.{AreOrdered};
ghost use Rattle.lq_types_unify.specs.Solved.{types_of, HasOrder};

use crate::arena::{Arena, Equation};
use crate::merge::{apart, flatten, merge, widen};
use crate::order::order;
use std::alloc::{AllocError, Global};

/// What equations between the nodes of an arena say: which nodes have one type, and which of these has its form. For each root
/// also the node that stood for it in the last copy, or a lower one.
#[derive(Drop)]
pub struct Solver {
    pub parents: Vec<u32>,
    pub shapes: Vec<u32>,
    pub found: Vec<Equation>,
    pub copies: Vec<u32>,
}

/// A type for each node of an arena. Nodes with the same root have the same type; it has the form of the node that the root keeps,
/// or is a variable. The roots stand in an order in which parts come first; one may stand there twice.
#[derive(Drop)]
pub struct Solution {
    pub parents: Vec<u32>,
    pub shapes: Vec<u32>,
    pub order: Vec<u32>,
}

impl Solver {
    /// No equations yet.
    pub fn new(alloc: Global, arena: &Arena) -> Result<Solver, AllocError>
        requires { IsArena arena.now }
        ensures { IfOk result (Knows arena.now []) }
    {
        let count = arena.nodes.len();
        Ok(Solver {
            parents: apart(alloc, count)?,
            shapes: apart(alloc, count)?,
            found: Vec::new(alloc),
            copies: apart(alloc, count)?,
        })
    }

    /// The same equations, where the arena has got more nodes.
    pub fn grow(&mut self, arena: &Arena) -> Result<(), AllocError>
        requires { IsArena arena.now }
        ensures knows { OnOk result ((old : Arena) (equations : List Equation) → IsLonger old arena.now
            → Knows old equations self.old → Knows arena.now equations self.new) }
        ensures stands { (old : Arena) (equations : List Equation) → Knows old equations self.old
            → KeepsClasses self.old self.new }
    {
        self.stretch(arena.nodes.len())?;
        Ok(())
    }

    // Tables of so many nodes.
    pub(crate) fn stretch(&mut self, count: usize) -> Result<(), AllocError>
        requires { count < 2 ^ 32 }
        ensures stretched { OnOk result (IsStretched self.old self.new count) }
        ensures widened { IsWidened self.old self.new }
    {
        widen(&mut self.parents, count)?;
        widen(&mut self.shapes, count)?;
        widen(&mut self.copies, count)?;
        Ok(())
    }

    /// The equations from this one on, behind those that there were. False where no types meet all.
    pub fn merge(
        &mut self,
        arena: &Arena,
        equations: &[Equation],
        from: usize,
    ) -> Result<bool, AllocError>
        requires arena { IsArena arena.now }
        requires nodes { AreNodes (length arena.now.nodes.items) equations.now }
        requires from { from ≤ length equations.now }
        requires knows { Knows arena.now (take from equations.now) self.old }
        ensures knows { IfOk result (λ yes. yes ≡ true → Knows arena.now equations.now self.new) }
        ensures stands { IsBetween arena.now (take from equations.now) equations.now self.new }
        ensures none { IfOk result (λ yes. yes ≡ false → HasNoSolution (form_at arena.now) equations.now) }
    {
        let met = merge(
            arena,
            &mut self.parents,
            &mut self.shapes,
            &mut self.found,
            &equations[from..],
        )?;
        Ok(met)
    }

    // The classes in an order in which the parts of each come before it, and each node's parent is its root. None where a class is inside
    // itself.
    fn order(&mut self, alloc: Global, arena: &Arena) -> Result<Option<Vec<u32>>, AllocError>
        requires arena { IsArena arena.now }
        requires knows { (equations : List Equation) × Knows arena.now equations self.old }
        ensures knows { (equations : List Equation) → Knows arena.now equations self.old
            → Knows arena.now equations self.new }
        ensures some { IfOk result (λ found. IfSome found (λ order. IsOrdered arena.now self.new
            (length order.items + 1))) }
        ensures ordered { IfOk result (λ found. IfSome found (λ order. AreOrdered (form_at arena.now)
            (length arena.now.nodes.items) self.new.parents.items self.new.shapes.items order.items)) }
        ensures none { IfOk result (λ found. IfNone found ((equations : List Equation)
            → Knows arena.now equations self.old → HasNoSolution (form_at arena.now) equations)) }
    {
        flatten(&mut self.parents);
        let found = order(alloc, arena, &self.parents, &self.shapes)?;
        Ok(found)
    }

    /// Whether types meet the equations, by one walk over all classes.
    pub fn is_solvable(&mut self, alloc: Global, arena: &Arena) -> Result<bool, AllocError>
        requires arena { IsArena arena.now }
        requires knows { (equations : List Equation) × Knows arena.now equations self.old }
        ensures knows { (equations : List Equation) → Knows arena.now equations self.old
            → Knows arena.now equations self.new }
        ensures yes { IfOk result (λ yes. yes ≡ true → (equations : List Equation)
            → Knows arena.now equations self.old → HasSolution (form_at arena.now) equations) }
        ensures no { IfOk result (λ yes. yes ≡ false → (equations : List Equation)
            → Knows arena.now equations self.old → HasNoSolution (form_at arena.now) equations) }
    {
        match self.order(alloc, arena)? {
            Some(_) => Ok(true),
            None => Ok(false),
        }
    }

    /// The most general solution, or None where no types meet the equations.
    pub fn solution(mut self, alloc: Global, arena: &Arena) -> Result<Option<Solution>, AllocError>
        requires arena { IsArena arena.now }
        requires knows { (equations : List Equation) × Knows arena.now equations self }
        ensures principal { IfOk result (λ found. IfSome found (λ s. (equations : List Equation)
            → Knows arena.now equations self → IsPrincipal (form_at arena.now) equations
            (types_of arena.now s))) }
        ensures ordered { IfOk result (λ found. IfSome found (HasOrder arena.now)) }
        ensures none { IfOk result (λ found. IfNone found ((equations : List Equation)
            → Knows arena.now equations self → HasNoSolution (form_at arena.now) equations)) }
    {
        match self.order(alloc, arena)? {
            Some(order) => Ok(Some(Solution {
                parents: self.parents,
                shapes: self.shapes,
                order,
            })),
            None => Ok(None),
        }
    }
}
