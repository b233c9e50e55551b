// Patterns whose `_` are made names.
ghost use Rattle.std.specs.Prelude.{◌≡◌, ◌≤◌, IfOk, OnOk};
ghost use Rattle.lq_base_names.specs.declared.name.Binder.{Binder};
ghost use Rattle.lq_text_tree.specs.PatternView.{pat_view, pats_view};
ghost use Rattle.lq_meaning_normal_tree.specs.BlockView.{local_view};
ghost use Rattle.lq_text_tree.specs.Tree.{Tree};
ghost use Rattle.lq_meaning_normal_form.specs.Outcomes.Naming.{named_part, named_parts, named_pattern, parameter, behind};
ghost use Rattle.lq_meaning_normalize.specs.Pass.Forming.{body_under, is_matched};
ghost use Rattle.lq_meaning_normalize.specs.Pass.Views.{lets_of, named_as, parts_as, under_view, is_there};

use crate::pass::making::Pass;
use lq_base_names::Binder;
use lq_meaning_normal_tree::Local;
use lq_text_tree::{Pat, PatNode, Pats};
use std::alloc::AllocError;

impl Pass {
    // A part of a pattern: each `_` is a made name.
    #[cycle(name_patterns)]
    fn name_part(&mut self, pattern: &Pat<Binder>) -> Result<Pat<Binder>, AllocError>
        ensures named { IfOk result (λ q. named_as self.new q
            ≡ named_part self.old.next (pat_view Binder (λ b. b.0) pattern.now)) }
        ensures lets { lets_of self.new ≡ lets_of self.old }
        ensures later { self.old.next ≤ self.new.next }
    {
        let node = match &pattern.node {
            PatNode::Any => PatNode::Bind(self.make_name()?),
            PatNode::Bind(x) => PatNode::Bind(*x),
            PatNode::Unit => PatNode::Unit,
            PatNode::Tuple(parts) => PatNode::Tuple(self.name_parts(parts)?),
            PatNode::Build(c, place, parts) => {
                PatNode::Build(*c, *place, self.name_parts(parts)?)
            }
        };
        Ok(Pat {
            place: pattern.place,
            node,
        })
    }

    #[cycle(name_patterns)]
    fn name_parts(&mut self, parts: &Pats<Binder>) -> Result<Pats<Binder>, AllocError>
        ensures named { IfOk result (λ qs. parts_as self.new qs
            ≡ named_parts self.old.next (pats_view Binder (λ b. b.0) parts.now)) }
        ensures lets { lets_of self.new ≡ lets_of self.old }
        ensures later { self.old.next ≤ self.new.next }
    {
        let mut named = Pats::new(self.alloc)?;
        for at in 0..parts.len() {
            let Some(part) = parts.get(at) else { break };
            named.push(self.name_part(part)?)?;
        }
        Ok(named)
    }

    /// The pattern of an arm: a `_` that is the whole of it stays.
    pub fn name_pattern(&mut self, pattern: &Pat<Binder>) -> Result<Pat<Binder>, AllocError>
        ensures named { IfOk result (λ q. named_as self.new q
            ≡ named_pattern self.old.next (pat_view Binder (λ b. b.0) pattern.now)) }
        ensures lets { lets_of self.new ≡ lets_of self.old }
        ensures later { self.old.next ≤ self.new.next }
    {
        match &pattern.node {
            PatNode::Any => Ok(Pat {
                place: pattern.place,
                node: PatNode::Any,
            }),
            _ => self.name_part(pattern),
        }
    }

    /// A parameter, which is a made name where it is none, and the pattern that its body matches it with, where it has parts.
    pub fn parameter(
        &mut self,
        pattern: &Pat<Binder>,
    ) -> Result<(Local, Option<Pat<Binder>>), AllocError>
        ensures parameter { IfOk result (λ r. local_view r.0
            ≡ parameter self.old.next (pat_view Binder (λ b. b.0) pattern.now)) }
        ensures next { OnOk result (self.new.next ≡ behind self.old.next (pat_view Binder (λ b. b.0) pattern.now)) }
        ensures under { IfOk result (λ r. (b : Tree) → under_view r.0 r.1 b
            ≡ body_under self.old.next (pat_view Binder (λ b. b.0) pattern.now) b) }
        ensures matched { IfOk result (λ r. is_there r.1 ≡ is_matched (pat_view Binder (λ b. b.0) pattern.now)) }
        ensures lets { lets_of self.new ≡ lets_of self.old }
        ensures later { self.old.next ≤ self.new.next }
    {
        let place = pattern.place;
        match &pattern.node {
            PatNode::Bind(x) => Ok((Local { place, binder: *x }, None)),
            PatNode::Any | PatNode::Unit => {
                let binder = self.make_name()?;
                Ok((Local { place, binder }, None))
            }
            PatNode::Tuple(_) | PatNode::Build(_, _, _) => {
                let binder = self.make_name()?;
                let named = self.name_part(pattern)?;
                Ok((Local { place, binder }, Some(named)))
            }
        }
    }
}
