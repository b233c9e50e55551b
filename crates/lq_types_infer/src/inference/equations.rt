// The equations of a program's visits, with the classes that they make.
ghost use Rattle.std.specs.Prelude.{◌≡◌, ℕ, ◌+◌, ◌<◌, ◌≤◌, length, All, IfOk, IfSome, IfNone};
ghost use Rattle.lq_base_names.specs.declared.name.Binder.{Binder};
ghost use Rattle.lq_text_tree.specs.MlType.{MlType};
ghost use Rattle.lq_text_tree.specs.Types.{Signature};
ghost use Rattle.lq_text_walk.specs.Walk.Pending.{visit_view};
ghost use Rattle.lq_types_unify.specs.Solved.{HasOrder};
ghost use Rattle.lq_types_unify.specs.Knowing.{Knows};
ghost use Rattle.lq_types_rules.specs.Equations.Adding.{IsFresh, IsSystem, Adds, count_of};
ghost use Rattle.lq_types_rules.specs.Equations.Gathered.{VisitIn, VisitRule};
ghost use Rattle.lq_types_rules.specs.Equations.Solved.{IsPrincipal, Solves, types_in};
ghost use Rattle.lq_types_rules.specs.Equations.Templates.{AreWhole, HasSignature};
ghost use Rattle.lq_types_rules.specs.Visits.Owning.{binder_slots};
ghost use Rattle.lq_types_infer.specs.Inference.Copying.{AddsUse};
ghost use Rattle.lq_types_infer.specs.Inference.Defining.{HasKnown, first_of};
ghost use Rattle.lq_types_infer.specs.Inference.Adding.{IsKept, IsAdded, IsAtVisit, IsStepOf, IsBehind, HasClash};
ghost use Rattle.lq_types_rules.specs.Typings.Uses.{none_known};

use crate::inference::copies::{add_same, add_use};
use crate::inference::definitions::{Definitions, Use};
use crate::inference::open::{Opened, Sifted, may_vary, sift};
use lq_text_tree::Binder;
use lq_text_walk::walk::Visit;
use lq_types_rules::equations::{Constructors, System};
use lq_types_unify::{Solution, Solver};
use std::alloc::{AllocError, Global};

/// The equations of a program's first visits, and the definitions that these have left.
#[derive(Drop)]
pub(crate) struct Equations {
    pub system: System,
    pub solver: Solver,
    /// The classes that stay themselves in a copy; none is marked between copies.
    pub weak: Vec<bool>,
    pub definitions: Definitions,
    /// The definitions whose types may have variables, of those that aren't generalised.
    pub opened: Opened,
}

/// The equations of a program with their most general solution.
#[derive(Drop)]
pub struct Inferred {
    pub system: System,
    pub solution: Solution,
}

impl Equations {
    /// Those of no visits, between so many slots.
    pub(crate) fn new(alloc: Global, slots: usize) -> Result<Equations, AllocError>
        ensures fresh { IfOk result (λ s. IsFresh slots s.system) }
        ensures kept { IfOk result (λ s. (nodes : ℕ) → IsKept nodes s) }
        ensures known { IfOk result (λ s. HasKnown s.definitions none_known) }
    {
        let system = System::new(alloc, slots)?;
        let solver = Solver::new(alloc, &system.arena)?;
        Ok(Equations {
            system,
            solver,
            weak: Vec::new(alloc),
            definitions: Definitions::new(alloc),
            opened: Opened {
                told: 0,
                places: Vec::new(alloc),
            },
        })
    }

    // With what a use adds of a definition whose type may have variables.
    fn with_copy(mut self, alloc: Global, nodes: u32, found: Use) -> Result<Equations, AllocError>
        requires kept { IsKept nodes self }
        requires before { found.before ≤ length self.definitions.plain.items }
        requires fixed { All (λ i. i < count_of self.system)
            (binder_slots nodes (first_of self.definitions.plain.items found.before)) }
        requires definition { nodes + found.binder < count_of self.system }
        requires node { found.node < count_of self.system }
        ensures added { IfOk result (λ s. IsAdded nodes self s) }
        ensures used { IfOk result (λ s. AddsUse self.system s.system
            (binder_slots nodes (first_of self.definitions.plain.items found.before)) (nodes + found.binder)
            found.node) }
    {
        self.opened.tell(found.before)?;
        let Sifted { kept, asked } = sift(
            alloc,
            &self.system,
            &mut self.solver,
            nodes,
            &self.definitions.plain,
            &self.opened.places,
            found.before,
        )?;
        self.opened.places = kept;
        add_use(
            alloc,
            &mut self.system,
            &mut self.solver,
            &mut self.weak,
            &asked,
            nodes + found.binder,
            found.node,
        )?;
        Ok(self)
    }

    // With what a use of a generalised definition adds.
    fn with_use(mut self, alloc: Global, nodes: u32, found: Use) -> Result<Equations, AllocError>
        requires kept { IsKept nodes self }
        requires before { found.before ≤ length self.definitions.plain.items }
        requires fixed { All (λ i. i < count_of self.system)
            (binder_slots nodes (first_of self.definitions.plain.items found.before)) }
        requires definition { nodes + found.binder < count_of self.system }
        requires node { found.node < count_of self.system }
        ensures added { IfOk result (λ s. IsAdded nodes self s) }
        ensures used { IfOk result (λ s. AddsUse self.system s.system
            (binder_slots nodes (first_of self.definitions.plain.items found.before)) (nodes + found.binder)
            found.node) }
    {
        let definition = nodes + found.binder;
        if may_vary(alloc, &self.system, &mut self.solver, definition)? {
            return self.with_copy(alloc, nodes, found);
        }
        add_same(&mut self.system, definition, found.node)?;
        Ok(self)
    }

    // With the rule of a visit.
    fn with_rule(
        self,
        alloc: Global,
        constructors: &Constructors,
        nodes: u32,
        visit: Visit<'_, Binder>,
    ) -> Result<Equations, AllocError>
        requires kept { IsKept nodes self }
        requires whole { AreWhole constructors.now }
        requires signature { (g : Signature) × HasSignature constructors.now g }
        requires within { VisitIn nodes (count_of self.system) (visit_view Binder (λ b. b.0) visit) }
        ensures added { IfOk result (λ s. IsAdded nodes self s) }
        ensures rule { IfOk result (λ s. (g : Signature) → HasSignature constructors.now g → Adds self.system
            s.system (VisitRule g nodes (visit_view Binder (λ b. b.0) visit.entry))) }
    {
        let Equations {
            system,
            mut solver,
            weak,
            definitions,
            opened,
        } = self;
        let system = system.with_visit(alloc, constructors, nodes, visit)?;
        solver.grow(&system.arena)?;
        Ok(Equations {
            system,
            solver,
            weak,
            definitions,
            opened,
        })
    }

    // With what a visit adds, where the classes are still those of the equations before.
    fn with_step(
        self,
        alloc: Global,
        constructors: &Constructors,
        nodes: u32,
        visit: Visit<'_, Binder>,
    ) -> Result<Equations, AllocError>
        requires kept { IsKept nodes self }
        requires whole { AreWhole constructors.now }
        requires signature { (g : Signature) × HasSignature constructors.now g }
        requires within { VisitIn nodes (count_of self.system) (visit_view Binder (λ b. b.0) visit) }
        requires known { IsAtVisit nodes self (visit_view Binder (λ b. b.0) visit) }
        ensures added { IfOk result (λ s. IsAdded nodes self s) }
        ensures step { IfOk result (λ s. IsStepOf constructors.now nodes self
            (visit_view Binder (λ b. b.0) visit.entry) s.system) }
    {
        match self.definitions.use_of(visit) {
            Some(found) => self.with_use(alloc, nodes, found),
            None => self.with_rule(alloc, constructors, nodes, visit),
        }
    }

    /// With what a visit adds, or None where a head then meets another one.
    pub(crate) fn with_visit(
        self,
        alloc: Global,
        constructors: &Constructors,
        nodes: u32,
        visit: Visit<'_, Binder>,
    ) -> Result<Option<Equations>, AllocError>
        requires kept { IsKept nodes self }
        requires whole { AreWhole constructors.now }
        requires signature { (g : Signature) × HasSignature constructors.now g }
        requires within { VisitIn nodes (count_of self.system) (visit_view Binder (λ b. b.0) visit) }
        requires known { IsAtVisit nodes self (visit_view Binder (λ b. b.0) visit) }
        ensures kept { IfOk result (λ found. IfSome found (λ s. IsKept nodes s)) }
        ensures step { IfOk result (λ found. IfSome found (λ s. IsStepOf constructors.now nodes self
            (visit_view Binder (λ b. b.0) visit.entry) s.system)) }
        ensures longer { IfOk result (λ found. IfSome found (λ s. count_of self.system ≤ count_of s.system)) }
        ensures known { IfOk result (λ found. IfSome found (λ s. IsBehind
            (visit_view Binder (λ b. b.0) visit.entry) self.definitions s.definitions)) }
        ensures clash { IfOk result (λ found. IfNone found (HasClash constructors.now nodes self
            (visit_view Binder (λ b. b.0) visit.entry))) }
    {
        let from = self.system.equations.len();
        let mut next = self.with_step(alloc, constructors, nodes, visit)?;
        if !next
            .solver
            .merge(&next.system.arena, &next.system.equations, from)?
        {
            return Ok(None);
        }
        next.definitions.leave(alloc, visit)?;
        Ok(Some(next))
    }

    /// With their most general solution, or None where they have none.
    pub(crate) fn solved(self, alloc: Global) -> Result<Option<Inferred>, AllocError>
        requires system { IsSystem self.system }
        requires knows { Knows self.system.arena self.system.equations.items self.solver }
        ensures same { IfOk result (λ found. IfSome found (λ i. i.system ≡ self.system)) }
        ensures principal { IfOk result (λ found. IfSome found (λ i. IsPrincipal i.system
            (types_in i.system i.solution))) }
        ensures ordered { IfOk result (λ found. IfSome found (λ i. HasOrder i.system.arena i.solution)) }
        ensures none { IfOk result (λ found. IfNone found ((types : ℕ → MlType)
            → Solves self.system self.system.equations.items types → ⊥)) }
    {
        let Equations {
            system,
            solver,
            weak: _weak,
            definitions: _definitions,
            opened: _opened,
        } = self;
        match solver.solution(alloc, &system.arena)? {
            Some(solution) => Ok(Some(Inferred { system, solution })),
            None => Ok(None),
        }
    }
}
