// The rules of all nodes.
ghost use Rattle.std.specs.Prelude.{◌≡◌, ◌<◌, [], ◌∷◌, length, slice_index, All, OnOk};
ghost use Rattle.lq_base_names.specs.declared.name.Binder.{Binder};
ghost use Rattle.lq_text_tree.specs.PatternView.{pat_view};
ghost use Rattle.lq_text_tree.specs.TreeView.{cases_view, case_view};
ghost use Rattle.lq_text_tree.specs.Types.{Signature};
ghost use Rattle.lq_text_tree.specs.TypingRules.{PatternIs};
ghost use Rattle.lq_text_walk.specs.Walk.Shape.{listed_cases};
ghost use Rattle.lq_text_walk.specs.Walk.View.{shape_view};
ghost use Rattle.lq_types_rules.specs.Equations.Adding.{IsSystem, IsLonger, Adds};
ghost use Rattle.lq_types_rules.specs.Equations.Rows.{annotation_of, FunIs, LetIs, ArmsFit, ShapeIs};
ghost use Rattle.lq_types_rules.specs.Equations.Within.{PatternIn, CaseIn, ShapeIn};
ghost use Rattle.lq_types_rules.specs.Equations.Templates.{AreWhole, HasSignature};

use crate::equations::node::number_of;
use crate::equations::row::numbers_of;
use crate::equations::system::System;
use crate::equations::template::Constructors;
use lq_text_tree::{Arm, Arms, Binder, Pat};
use lq_text_walk::walk::Shape;
use lq_types_unify::Head;
use std::alloc::{AllocError, Global};

impl System {
    // A function of this parameter and body.
    pub(crate) fn add_function(
        &mut self,
        alloc: Global,
        constructors: &Constructors,
        nodes: u32,
        parameter: &Pat<Binder>,
        body: u32,
        at: u32,
    ) -> Result<(), AllocError>
        requires system { IsSystem self.old }
        requires whole { AreWhole constructors.now }
        requires names { PatternIn nodes (length self.old.arena.nodes.items)
            (pat_view Binder (λ b. b.0) parameter.now) }
        requires body { body < length self.old.arena.nodes.items }
        requires at { at < length self.old.arena.nodes.items }
        ensures grows { OnOk result (IsLonger self.old self.new) }
        ensures adds { OnOk result ((g : Signature) → HasSignature constructors.now g → Adds self.old self.new
            (FunIs g nodes (pat_view Binder (λ b. b.0) parameter.now) body at)) }
    {
        let sides = self.opened(alloc, at, Head::Arrow, 2)?;
        self.add_sides(alloc, constructors, nodes, parameter, &sides, body)?;
        Ok(())
    }

    // The two sides of a function's type: its parameter's, and its body's.
    fn add_sides(
        &mut self,
        alloc: Global,
        constructors: &Constructors,
        nodes: u32,
        parameter: &Pat<Binder>,
        sides: &[u32],
        body: u32,
    ) -> Result<(), AllocError>
        requires system { IsSystem self.old }
        requires whole { AreWhole constructors.now }
        requires names { PatternIn nodes (length self.old.arena.nodes.items)
            (pat_view Binder (λ b. b.0) parameter.now) }
        requires two { length sides.now ≡ 2 }
        requires sides { All (λ a. a < length self.old.arena.nodes.items) sides.now }
        requires body { body < length self.old.arena.nodes.items }
        ensures grows { OnOk result (IsLonger self.old self.new) }
        ensures adds { OnOk result ((g : Signature) → HasSignature constructors.now g → Adds self.old self.new
            (λ t. (t (slice_index sides.now 1) ≡ t body) × PatternIs g (annotation_of nodes t)
            (pat_view Binder (λ b. b.0) parameter.now) (t (slice_index sides.now 0)))) }
    {
        self.same(sides[1], body)?;
        self.add_pattern(alloc, constructors, nodes, parameter, sides[0])?;
        Ok(())
    }

    fn add_let(
        &mut self,
        alloc: Global,
        constructors: &Constructors,
        nodes: u32,
        pattern: &Pat<Binder>,
        bound: u32,
        body: u32,
        at: u32,
    ) -> Result<(), AllocError>
        requires system { IsSystem self.old }
        requires whole { AreWhole constructors.now }
        requires names { PatternIn nodes (length self.old.arena.nodes.items)
            (pat_view Binder (λ b. b.0) pattern.now) }
        requires bound { bound < length self.old.arena.nodes.items }
        requires body { body < length self.old.arena.nodes.items }
        requires at { at < length self.old.arena.nodes.items }
        ensures grows { OnOk result (IsLonger self.old self.new) }
        ensures adds { OnOk result ((g : Signature) → HasSignature constructors.now g → Adds self.old self.new
            (LetIs g nodes (pat_view Binder (λ b. b.0) pattern.now) bound body at)) }
    {
        self.same(at, body)?;
        self.add_pattern(alloc, constructors, nodes, pattern, bound)?;
        Ok(())
    }

    fn add_let_rec(
        &mut self,
        function: u32,
        name: u32,
        body: u32,
        at: u32,
    ) -> Result<(), AllocError>
        requires system { IsSystem self.old }
        requires function { function < length self.old.arena.nodes.items }
        requires name { name < length self.old.arena.nodes.items }
        requires body { body < length self.old.arena.nodes.items }
        requires at { at < length self.old.arena.nodes.items }
        ensures { OnOk result (Adds self.old self.new (λ t. (t at ≡ t body) × (t function ≡ t name))) }
    {
        self.same(at, body)?;
        self.same(function, name)?;
        Ok(())
    }

    fn add_arm(
        &mut self,
        alloc: Global,
        constructors: &Constructors,
        nodes: u32,
        arm: &Arm<Binder>,
        matched: u32,
        at: u32,
    ) -> Result<(), AllocError>
        requires system { IsSystem self.old }
        requires whole { AreWhole constructors.now }
        requires arm { CaseIn nodes (length self.old.arena.nodes.items)
            (case_view Binder (λ b. b.0) arm.now) }
        requires matched { matched < length self.old.arena.nodes.items }
        requires at { at < length self.old.arena.nodes.items }
        ensures grows { OnOk result (IsLonger self.old self.new) }
        ensures adds { OnOk result ((g : Signature) → HasSignature constructors.now g → Adds self.old self.new
            (ArmsFit g nodes (case_view Binder (λ b. b.0) arm.now ∷ []) matched at)) }
    {
        self.add_pattern(alloc, constructors, nodes, &arm.pattern, matched)?;
        self.same(number_of(&arm.body), at)?;
        Ok(())
    }

    fn add_match(
        &mut self,
        alloc: Global,
        constructors: &Constructors,
        nodes: u32,
        arms: &Arms<Binder>,
        matched: u32,
        at: u32,
    ) -> Result<(), AllocError>
        requires system { IsSystem self.old }
        requires whole { AreWhole constructors.now }
        requires arms { All (CaseIn nodes (length self.old.arena.nodes.items))
            (listed_cases (cases_view Binder (λ b. b.0) arms.now)) }
        requires matched { matched < length self.old.arena.nodes.items }
        requires at { at < length self.old.arena.nodes.items }
        ensures grows { OnOk result (IsLonger self.old self.new) }
        ensures adds { OnOk result ((g : Signature) → HasSignature constructors.now g → Adds self.old self.new
            (ArmsFit g nodes (listed_cases (cases_view Binder (λ b. b.0) arms.now)) matched at)) }
    {
        for next in 0..arms.len() {
            if let Some(arm) = arms.get(next) {
                self.add_arm(alloc, constructors, nodes, arm, matched, at)?;
            }
        }
        Ok(())
    }

    // A node of this shape and number.
    pub(crate) fn add_shape(
        &mut self,
        alloc: Global,
        constructors: &Constructors,
        nodes: u32,
        shape: Shape<'_, Binder>,
        at: u32,
    ) -> Result<(), AllocError>
        requires system { IsSystem self.old }
        requires whole { AreWhole constructors.now }
        requires at { at < length self.old.arena.nodes.items }
        requires within { ShapeIn nodes (length self.old.arena.nodes.items)
            (shape_view Binder (λ b. b.0) shape) }
        ensures grows { OnOk result (IsLonger self.old self.new) }
        ensures adds { OnOk result ((g : Signature) → HasSignature constructors.now g → Adds self.old self.new
            (ShapeIs g nodes (shape_view Binder (λ b. b.0) shape.entry) at)) }
    {
        match shape {
            Shape::Leaf(leaf) => self.add_leaf(nodes, leaf, at),
            Shape::One(head, a) => self.add_one(alloc, head, number_of(a), at),
            Shape::Two(head, a, b) => self.add_two(head, number_of(a), number_of(b), at),
            Shape::Three(head, a, b, c) => {
                self.add_three(head, number_of(a), number_of(b), number_of(c), at)
            }
            Shape::Row(head, row) => {
                let parts = numbers_of(alloc, row)?;
                self.add_row_of(alloc, constructors, head, &parts, at)?;
                Ok(())
            }
            Shape::Fun(parameter, body) => {
                self.add_function(alloc, constructors, nodes, parameter, number_of(body), at)?;
                Ok(())
            }
            Shape::Let(pattern, bound, body) => {
                let (bound, body) = (number_of(bound), number_of(body));
                self.add_let(alloc, constructors, nodes, pattern, bound, body, at)?;
                Ok(())
            }
            Shape::LetRec(name, function, body) => {
                self.add_let_rec(function.id, nodes + name.0, number_of(body), at)
            }
            Shape::Match(matched, arms) => {
                self.add_match(alloc, constructors, nodes, arms, number_of(matched), at)?;
                Ok(())
            }
        }
    }
}
