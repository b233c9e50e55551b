// The rules of nodes, a case a shape.
ghost use Rattle.std.specs.Prelude.{◌≡◌, ◌+◌, ◌<◌, length, OnOk};
ghost use Rattle.lq_base_names.specs.declared.name.Binder.{Binder};
ghost use Rattle.lq_text_tree.specs.MlType as ml;
ghost use Rattle.lq_text_tree.specs.MlType.{MlType};
ghost use Rattle.lq_text_tree.specs.TreeView.{tree_view};
ghost use Rattle.lq_text_walk.specs.Walk.View.{leaf_view, one_view, two_view, three_view};
ghost use Rattle.lq_types_rules.specs.Equations.Adding.{IsRight, IsSystem, Adds};
ghost use Rattle.lq_types_rules.specs.Equations.Solutions.{made};
ghost use Rattle.lq_types_rules.specs.Equations.Rows.{number_of, LeafIs, OneIs, TwoIs, ThreeIs};
ghost use Rattle.lq_types_rules.specs.Equations.Within.{LeafIn};

use crate::equations::system::System;
use lq_text_tree::{Binder, Expr};
use lq_text_walk::walk::{Leaf, One, Three, Two};
use lq_types_unify::Head;
use std::alloc::{AllocError, Global};

// The number of a node.
pub(crate) fn number_of(node: &Expr<Binder>) -> u32
    ensures { result ≡ number_of (tree_view Binder (λ b. b.0) node.now) }
{
    node.id
}

impl System {
    // Two have types that are heads alone.
    fn are_plain(&mut self, a: u32, x: Head, b: u32, y: Head) -> Result<(), AllocError>
        requires system { IsSystem self.old }
        requires first { a < length self.old.arena.nodes.items }
        requires second { b < length self.old.arena.nodes.items }
        requires first_head { IsRight x 0 }
        requires second_head { IsRight y 0 }
        ensures { OnOk result (Adds self.old self.new (λ t. (t a ≡ made x ml.no_types)
            × (t b ≡ made y ml.no_types))) }
    {
        self.is(a, x, &[])?;
        self.is(b, y, &[])?;
        Ok(())
    }

    pub(crate) fn add_leaf(
        &mut self,
        nodes: u32,
        leaf: Leaf<Binder>,
        at: u32,
    ) -> Result<(), AllocError>
        requires system { IsSystem self.old }
        requires at { at < length self.old.arena.nodes.items }
        requires within { LeafIn nodes (length self.old.arena.nodes.items)
            (leaf_view Binder (λ b. b.0) leaf) }
        ensures { OnOk result (Adds self.old self.new (LeafIs nodes (leaf_view Binder (λ b. b.0) leaf) at)) }
    {
        match leaf {
            Leaf::Whole(_) => self.is(at, Head::Whole, &[]),
            Leaf::Flag(_) => self.is(at, Head::Flag, &[]),
            Leaf::Unit => self.is(at, Head::Unit, &[]),
            Leaf::Use(x) => self.same(at, nodes + x.0),
            Leaf::Qualified(_, _) => self.never(at),
            Leaf::AssertFalse => Ok(()),
            Leaf::MapEmpty => self.never(at),
        }
    }

    pub(crate) fn add_one(
        &mut self,
        alloc: Global,
        head: One,
        a: u32,
        at: u32,
    ) -> Result<(), AllocError>
        requires system { IsSystem self.old }
        requires at { at < length self.old.arena.nodes.items }
        requires first { a < length self.old.arena.nodes.items }
        ensures { OnOk result (Adds self.old self.new (OneIs (one_view head) a at)) }
    {
        match head {
            One::Neg => self.are_plain(a, Head::Whole, at, Head::Whole),
            One::Not => self.are_plain(a, Head::Flag, at, Head::Flag),
            One::Assert => self.are_plain(a, Head::Flag, at, Head::Unit),
            One::Length => self.add_length(alloc, a, at),
            One::Print => self.are_plain(a, Head::Whole, at, Head::Unit),
            One::Read => self.are_plain(a, Head::Unit, at, Head::Whole),
        }
    }

    fn add_length(&mut self, alloc: Global, a: u32, at: u32) -> Result<(), AllocError>
        requires system { IsSystem self.old }
        requires at { at < length self.old.arena.nodes.items }
        requires first { a < length self.old.arena.nodes.items }
        ensures { OnOk result (Adds self.old self.new (λ t. (element : MlType) × (t a ≡ ml.array element)
            × (t at ≡ ml.int))) }
    {
        self.opened(alloc, a, Head::Array, 1)?;
        self.is(at, Head::Whole, &[])?;
        Ok(())
    }

    // Three have types that are heads alone.
    fn all_plain(
        &mut self,
        a: u32,
        b: u32,
        operand: Head,
        c: u32,
        answer: Head,
    ) -> Result<(), AllocError>
        requires system { IsSystem self.old }
        requires first { a < length self.old.arena.nodes.items }
        requires second { b < length self.old.arena.nodes.items }
        requires third { c < length self.old.arena.nodes.items }
        requires operand_head { IsRight operand 0 }
        requires answer_head { IsRight answer 0 }
        ensures { OnOk result (Adds self.old self.new (λ t. (t a ≡ made operand ml.no_types)
            × (t b ≡ made operand ml.no_types) × (t c ≡ made answer ml.no_types))) }
    {
        self.is(a, operand, &[])?;
        self.are_plain(b, operand, c, answer)?;
        Ok(())
    }

    pub(crate) fn add_two(&mut self, head: Two, a: u32, b: u32, at: u32) -> Result<(), AllocError>
        requires system { IsSystem self.old }
        requires at { at < length self.old.arena.nodes.items }
        requires first { a < length self.old.arena.nodes.items }
        requires second { b < length self.old.arena.nodes.items }
        ensures { OnOk result (Adds self.old self.new (TwoIs (two_view head) a b at)) }
    {
        match head {
            Two::Call => self.is(a, Head::Arrow, &[b, at]),
            Two::Arith(_) => self.all_plain(a, b, Head::Whole, at, Head::Whole),
            Two::Compare(_) => self.all_plain(a, b, Head::Whole, at, Head::Flag),
            Two::And => self.all_plain(a, b, Head::Flag, at, Head::Flag),
            Two::Or => self.all_plain(a, b, Head::Flag, at, Head::Flag),
            Two::Make => self.add_make(a, b, at),
            Two::Fetch => self.add_fetch(a, b, at),
            Two::MapFind => self.never(at),
        }
    }

    fn add_make(&mut self, a: u32, b: u32, at: u32) -> Result<(), AllocError>
        requires system { IsSystem self.old }
        requires at { at < length self.old.arena.nodes.items }
        requires first { a < length self.old.arena.nodes.items }
        requires second { b < length self.old.arena.nodes.items }
        ensures { OnOk result (Adds self.old self.new (λ t. (t a ≡ ml.int) × (t at ≡ ml.array (t b)))) }
    {
        self.is(a, Head::Whole, &[])?;
        self.is(at, Head::Array, &[b])?;
        Ok(())
    }

    fn add_fetch(&mut self, a: u32, b: u32, at: u32) -> Result<(), AllocError>
        requires system { IsSystem self.old }
        requires at { at < length self.old.arena.nodes.items }
        requires first { a < length self.old.arena.nodes.items }
        requires second { b < length self.old.arena.nodes.items }
        ensures { OnOk result (Adds self.old self.new (λ t. (t a ≡ ml.array (t at)) × (t b ≡ ml.int))) }
    {
        self.is(a, Head::Array, &[at])?;
        self.is(b, Head::Whole, &[])?;
        Ok(())
    }

    pub(crate) fn add_three(
        &mut self,
        head: Three,
        a: u32,
        b: u32,
        c: u32,
        at: u32,
    ) -> Result<(), AllocError>
        requires system { IsSystem self.old }
        requires at { at < length self.old.arena.nodes.items }
        requires first { a < length self.old.arena.nodes.items }
        requires second { b < length self.old.arena.nodes.items }
        requires third { c < length self.old.arena.nodes.items }
        ensures { OnOk result (Adds self.old self.new (ThreeIs (three_view head) a b c at)) }
    {
        match head {
            Three::If => self.add_if(a, b, c, at),
            Three::Store => self.add_store(a, b, c, at),
            Three::MapAdd => self.never(at),
        }
    }

    fn add_if(&mut self, a: u32, b: u32, c: u32, at: u32) -> Result<(), AllocError>
        requires system { IsSystem self.old }
        requires at { at < length self.old.arena.nodes.items }
        requires first { a < length self.old.arena.nodes.items }
        requires second { b < length self.old.arena.nodes.items }
        requires third { c < length self.old.arena.nodes.items }
        ensures { OnOk result (Adds self.old self.new (λ t. (t a ≡ ml.bool) × (t b ≡ t at) × (t c ≡ t at))) }
    {
        self.is(a, Head::Flag, &[])?;
        self.same(b, at)?;
        self.same(c, at)?;
        Ok(())
    }

    fn add_store(&mut self, a: u32, b: u32, c: u32, at: u32) -> Result<(), AllocError>
        requires system { IsSystem self.old }
        requires at { at < length self.old.arena.nodes.items }
        requires first { a < length self.old.arena.nodes.items }
        requires second { b < length self.old.arena.nodes.items }
        requires third { c < length self.old.arena.nodes.items }
        ensures { OnOk result (Adds self.old self.new (λ t. (t a ≡ ml.array (t c)) × (t b ≡ ml.int)
            × (t at ≡ ml.unit))) }
    {
        self.is(a, Head::Array, &[c])?;
        self.are_plain(b, Head::Whole, at, Head::Unit)?;
        Ok(())
    }
}
