// A walk over a program that finds the types by which its uses of generalised definitions are instantiated.
use crate::annotation::Annotated;
use crate::instantiation::general::{Generalised, Use};
use crate::instantiation::matching::Matching;
use lq_text_tree::Binder;
use lq_text_walk::walk::{Visit, Walk};
use std::alloc::{AllocError, Global};

/// What a walk has found.
#[derive(Drop)]
pub(crate) struct Pass {
    definitions: Generalised,
    matching: Matching,
    /// The types for variables, node by node.
    pub(crate) rows: Vec<u32>,
    /// Where those of each node begin, and where the next ones will.
    pub(crate) starts: Vec<usize>,
}

impl Pass {
    ghost use Rattle.std.specs.Prelude.{◌≡◌, ℕ, ◌<◌, ◌∷◌, ◌++◌, List, map, length, All, IfOk, OnOk};
    ghost use Rattle.lq_base_names.specs.declared.name.Binder.{Binder};
    ghost use Rattle.lq_types_rules.specs.Typings.Fronts.{left_at};
    ghost use Rattle.lq_types_rules.specs.Typings.Principal.{node_count};
    ghost use Rattle.lq_types_rules.specs.Typings.Uses.{Known, GeneralUse, none_known, behind, use_at};
    ghost use Rattle.lq_text_walk.specs.Walk.Pending.{visit_view};
    ghost use Rattle.lq_text_walk.specs.Walk.Visits as plain;
    ghost use Rattle.lq_text_walk.specs.Walk.Visits.{visits_of_items};
    ghost use Rattle.lq_types_infer.specs.Annotation.Whole.{program_of, table_of, types_of};
    ghost use Rattle.lq_types_infer.specs.Instantiation.General.{HasGeneral, use_view, place_in};
    ghost use Rattle.lq_types_infer.specs.Instantiation.Instances.{AreFound};
    ghost use Rattle.lq_types_infer.specs.Instantiation.Matching.{IsMatching};
    ghost use Rattle.lq_types_infer.specs.Instantiation.Uses.{IsCounted, Instantiates, uses_of};
    ghost use Rattle.lq_types_infer.specs.Instantiation.Visiting.{IsUse, IsUseIf, InstantiatesIf, IsAhead, IsAt};

    // Before the first visit.
    fn new(alloc: Global, annotated: &Annotated) -> Result<Pass, AllocError>
        ensures { IfOk result (λ p. IsAhead (program_of annotated.now) (types_of annotated.now) none_known
            (visits_of_items (program_of annotated.now).items) 0
            → IsAt annotated.now none_known (visits_of_items (program_of annotated.now).items) p) }
    {
        let mut starts = Vec::new(alloc);
        starts.push(0)?;
        Ok(Pass {
            definitions: Generalised::new(alloc),
            matching: Matching::new(alloc, annotated.types())?,
            rows: Vec::new(alloc),
            starts,
        })
    }

    // Adds the types that instantiate a use.
    fn add_use(&mut self, alloc: Global, annotated: &Annotated, used: Use) -> Result<(), AllocError>
        requires matching { IsMatching (table_of annotated.now) self.old.matching }
        requires used { ∥ IsUse (program_of annotated.now) (types_of annotated.now) used.node used.binder ∥₁ }
        ensures matching { OnOk result (IsMatching (table_of annotated.now) self.new.matching) }
        ensures definitions { OnOk result (self.new.definitions ≡ self.old.definitions) }
        ensures starts { OnOk result (self.new.starts ≡ self.old.starts) }
        ensures rows { OnOk result (self.new.rows.items ≡ self.old.rows.items ++ self.new.matching.found.items) }
        ensures found { OnOk result ((u : GeneralUse) → place_in u ≡ use_view used
            → IsUse (program_of annotated.now) (types_of annotated.now) used.node used.binder
            → IsCounted (node_count (program_of annotated.now)) (types_of annotated.now) u self.new.matching.found.items
            × Instantiates (table_of annotated.now) (node_count (program_of annotated.now)) (types_of annotated.now) u
            self.new.matching.found.items) }
    {
        let binder = Binder(used.binder);
        let definition = annotated.type_of_binder(binder);
        let count = annotated.scheme_of(binder);
        let node = annotated.type_of(used.node);
        self.matching
            .find(alloc, annotated.types(), definition, node, count)?;
        self.rows.extend_from_slice(&self.matching.found)?;
        Ok(())
    }

    // Adds the types that instantiate what is left here, if it is a use.
    fn add_left(
        &mut self,
        alloc: Global,
        annotated: &Annotated,
        visit: Visit<'_, Binder>,
    ) -> Result<(), AllocError>
        requires matching { IsMatching (table_of annotated.now) self.old.matching }
        requires used { ∥ ((k : Known) × HasGeneral self.old.definitions k
            × IsUseIf (program_of annotated.now) (types_of annotated.now) (use_at k (visit_view Binder (λ b. b.0) visit))) ∥₁ }
        ensures matching { OnOk result (IsMatching (table_of annotated.now) self.new.matching) }
        ensures definitions { OnOk result (self.new.definitions ≡ self.old.definitions) }
        ensures starts { OnOk result (self.new.starts ≡ self.old.starts) }
        ensures rows { OnOk result ((more : List ℕ) × (self.new.rows.items ≡ self.old.rows.items ++ more)
            × All (λ r. r < length (table_of annotated.now)) more
            × ((k : Known) → HasGeneral self.old.definitions k → IsUseIf (program_of annotated.now)
            (types_of annotated.now) (use_at k (visit_view Binder (λ b. b.0) visit.entry))
            → InstantiatesIf (table_of annotated.now) (node_count (program_of annotated.now)) (types_of annotated.now)
            (use_at k (visit_view Binder (λ b. b.0) visit.entry)) more)) }
    {
        match self.definitions.use_of(visit) {
            Some(used) => self.add_use(alloc, annotated, used),
            None => Ok(()),
        }
    }

    // The node that is left here, if one is, has its types.
    fn end_node(&mut self, visit: Visit<'_, Binder>) -> Result<(), AllocError>
        ensures starts { OnOk result (self.new.starts.items ≡ self.old.starts.items
            ++ map (λ i. length self.old.rows.items) (left_at (visit_view Binder (λ b. b.0) visit.entry))) }
        ensures rows { OnOk result (self.new.rows ≡ self.old.rows) }
        ensures matching { OnOk result (self.new.matching ≡ self.old.matching) }
        ensures definitions { OnOk result (self.new.definitions ≡ self.old.definitions) }
    {
        match visit {
            Visit::Leave(_) | Visit::LeaveFunction(_) => {
                self.starts.push(self.rows.len())?;
                Ok(())
            }
            _ => Ok(()),
        }
    }

    // Goes past a visit.
    fn go(
        &mut self,
        alloc: Global,
        annotated: &Annotated,
        visit: Visit<'_, Binder>,
    ) -> Result<(), AllocError>
        requires there { ∥ ((k : Known) × (vs : List plain.Visit) × IsAt annotated.now k
            (visit_view Binder (λ b. b.0) visit ∷ vs) self.old) ∥₁ }
        ensures gone { OnOk result ((k : Known) (vs : List plain.Visit)
            → IsAt annotated.now k (visit_view Binder (λ b. b.0) visit.entry ∷ vs) self.old
            → IsAt annotated.now (behind k (visit_view Binder (λ b. b.0) visit.entry)) vs self.new) }
    {
        self.add_left(alloc, annotated, visit)?;
        self.end_node(visit)?;
        self.definitions.leave(alloc, visit)
    }

    /// Over a whole program.
    pub(crate) fn over(alloc: Global, annotated: &Annotated) -> Result<Pass, AllocError>
        requires { ∥ IsAhead (program_of annotated.now) (types_of annotated.now) none_known
            (visits_of_items (program_of annotated.now).items) 0 ∥₁ }
        ensures { IfOk result (λ p. ∥ AreFound (table_of annotated.now) (node_count (program_of annotated.now))
            (types_of annotated.now) (uses_of (program_of annotated.now)) p.rows.items p.starts.items
            (node_count (program_of annotated.now)) ∥₁) }
    {
        let mut pass = Pass::new(alloc, annotated)?;
        let mut walk = Walk::of_items(alloc, annotated.scoped().items())?;
        while let Some(visit) = walk.next()? {
            pass.go(alloc, annotated, visit)?;
        }
        Ok(pass)
    }
}
