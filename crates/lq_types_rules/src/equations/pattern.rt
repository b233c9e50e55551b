// The rules of patterns.
ghost use Rattle.std.specs.Prelude.{◌≡◌, ℕ, ◌+◌, ◌<◌, length, map, All, OnOk};
ghost use Rattle.lq_base_names.specs.declared.name.Binder.{Binder};
ghost use Rattle.lq_text_tree.specs.Pattern.{bound_in, bound_in_form, bound_in_all};
ghost use Rattle.lq_text_tree.specs.PatternView.{pat_view, pat_form_view, pats_view, pats_items};
ghost use Rattle.lq_text_tree.specs.Types.{Signature};
ghost use Rattle.lq_text_tree.specs.TypingRules.{PatternIs, PatternFormIs};
ghost use Rattle.lq_types_rules.specs.Equations.Adding.{IsSystem, IsLonger, Adds};
ghost use Rattle.lq_types_rules.specs.Equations.Rows.{annotation_of, PatternsFit};
ghost use Rattle.lq_types_rules.specs.Equations.Templates.{AreWhole, HasSignature};

use crate::equations::system::System;
use crate::equations::template::Constructors;
use lq_text_tree::{Binder, Pat, PatNode, Pats};
use lq_types_unify::Head;
use std::alloc::{AllocError, Global};

impl System {
    // A pattern is for values of the type of one.
    #[cycle(patterns)]
    pub(crate) fn add_pattern(
        &mut self,
        alloc: Global,
        constructors: &Constructors,
        nodes: u32,
        pattern: &Pat<Binder>,
        slot: u32,
    ) -> Result<(), AllocError>
        requires system { IsSystem self.old }
        requires whole { AreWhole constructors.now }
        requires names { All (λ x. nodes + x < length self.old.arena.nodes.items)
            (bound_in (pat_view Binder (λ b. b.0) pattern.now)) }
        requires slot { slot < length self.old.arena.nodes.items }
        ensures grows { OnOk result (IsLonger self.old self.new) }
        ensures adds { OnOk result ((g : Signature) → HasSignature constructors.now g → Adds self.old self.new
            (λ t. PatternIs g (annotation_of nodes t) (pat_view Binder (λ b. b.0) pattern.now) (t slot))) }
    {
        self.add_form(alloc, constructors, nodes, &pattern.node, slot)?;
        Ok(())
    }

    #[cycle(patterns)]
    fn add_form(
        &mut self,
        alloc: Global,
        constructors: &Constructors,
        nodes: u32,
        form: &PatNode<Binder>,
        slot: u32,
    ) -> Result<(), AllocError>
        requires system { IsSystem self.old }
        requires whole { AreWhole constructors.now }
        requires names { All (λ x. nodes + x < length self.old.arena.nodes.items)
            (bound_in_form (pat_form_view Binder (λ b. b.0) form.now)) }
        requires slot { slot < length self.old.arena.nodes.items }
        ensures grows { OnOk result (IsLonger self.old self.new) }
        ensures adds { OnOk result ((g : Signature) → HasSignature constructors.now g → Adds self.old self.new
            (λ t. PatternFormIs g (annotation_of nodes t) (pat_form_view Binder (λ b. b.0) form.now)
            (t slot))) }
    {
        match form {
            PatNode::Any => Ok(()),
            PatNode::Bind(x) => self.same(nodes + x.0, slot),
            PatNode::Unit => self.is(slot, Head::Unit, &[]),
            PatNode::Tuple(row) => {
                let roots = self.opened(alloc, slot, Head::Tuple, row.len())?;
                self.add_row(alloc, constructors, nodes, row, &roots)?;
                Ok(())
            }
            PatNode::Build(name, _, row) => {
                let found = self.built(alloc, constructors, *name, slot, row.len())?;
                match found {
                    Some(roots) => {
                        self.add_row(alloc, constructors, nodes, row, &roots)?;
                        Ok(())
                    }
                    None => Ok(()),
                }
            }
        }
    }

    // Each pattern of a row is for values of the type of the one beside it.
    #[cycle(patterns)]
    fn add_row(
        &mut self,
        alloc: Global,
        constructors: &Constructors,
        nodes: u32,
        row: &Pats<Binder>,
        roots: &[u32],
    ) -> Result<(), AllocError>
        requires system { IsSystem self.old }
        requires whole { AreWhole constructors.now }
        requires names { All (λ x. nodes + x < length self.old.arena.nodes.items)
            (bound_in_all (pats_view Binder (λ b. b.0) row.now)) }
        requires count { length roots.now ≡ length (pats_items Binder row.now) }
        requires inside { All (λ r. r < length self.old.arena.nodes.items) roots.now }
        ensures grows { OnOk result (IsLonger self.old self.new) }
        ensures adds { OnOk result ((g : Signature) → HasSignature constructors.now g → Adds self.old self.new
            (PatternsFit g nodes (map (pat_view Binder (λ b. b.0)) (pats_items Binder row.now)) roots.now)) }
    {
        for at in 0..roots.len() {
            if let Some(pattern) = row.get(at) {
                self.add_pattern(alloc, constructors, nodes, pattern, roots[at])?;
            }
        }
        Ok(())
    }
}
