// The rules of nodes with a row of parts.
ghost use Rattle.std.specs.Prelude.{◌≡◌, ◌<◌, length, map, slice_index, All, OnOk, IfOk};
ghost use Rattle.lq_base_names.specs.declared.name.Binder.{Binder};
ghost use Rattle.lq_text_tree.specs.TreeView.{trees_view};
ghost use Rattle.lq_text_tree.specs.Types.{Signature, AreAll, Lists};
ghost use Rattle.lq_text_walk.specs.Walk.Shape.{listed};
ghost use Rattle.lq_text_walk.specs.Walk.View.{row_view};
ghost use Rattle.lq_types_rules.specs.Equations.Adding.{IsSystem, IsLonger, Adds};
ghost use Rattle.lq_types_rules.specs.Equations.Solutions.{each};
ghost use Rattle.lq_types_rules.specs.Equations.Rows.{number_of, ChainIs, RowIs};
ghost use Rattle.lq_types_rules.specs.Equations.Templates.{AreWhole, HasSignature};

use crate::equations::node::number_of;
use crate::equations::system::System;
use crate::equations::template::Constructors;
use lq_text_tree::{Binder, Exprs};
use lq_text_walk::walk::Row;
use lq_types_unify::Head;
use std::alloc::{AllocError, Global};

/// The number of the name `list`.
const LIST: u32 = 4;

// The numbers of a row of nodes.
pub(crate) fn numbers_of(alloc: Global, row: &Exprs<Binder>) -> Result<Vec<u32>, AllocError>
    ensures { IfOk result (λ all. all.items ≡ map number_of (listed (trees_view Binder (λ b. b.0) row.now))) }
{
    let mut all = Vec::new(alloc);
    for at in 0..row.len() {
        if let Some(node) = row.get(at) {
            all.push(number_of(node))?;
        }
    }
    Ok(all)
}

impl System {
    // Each has the type of the one beside it.
    fn are_same(&mut self, lefts: &[u32], rights: &[u32]) -> Result<(), AllocError>
        requires system { IsSystem self.old }
        requires count { length rights.now ≡ length lefts.now }
        requires lefts { All (λ a. a < length self.old.arena.nodes.items) lefts.now }
        requires rights { All (λ a. a < length self.old.arena.nodes.items) rights.now }
        ensures { OnOk result (Adds self.old self.new (λ t. each t lefts.now ≡ each t rights.now)) }
    {
        for at in 0..lefts.len() {
            self.same(lefts[at], rights[at])?;
        }
        Ok(())
    }

    // Each has the type of the one.
    fn are_all(&mut self, parts: &[u32], one: &[u32]) -> Result<(), AllocError>
        requires system { IsSystem self.old }
        requires parts { All (λ a. a < length self.old.arena.nodes.items) parts.now }
        requires single { length one.now ≡ 1 }
        requires one { All (λ a. a < length self.old.arena.nodes.items) one.now }
        ensures { OnOk result (Adds self.old self.new (λ t. AreAll (t (slice_index one.now 0))
            (each t parts.now))) }
    {
        for at in 0..parts.len() {
            self.same(parts[at], one[0])?;
        }
        Ok(())
    }

    fn add_list(&mut self, alloc: Global, parts: &[u32], at: u32) -> Result<(), AllocError>
        requires system { IsSystem self.old }
        requires at { at < length self.old.arena.nodes.items }
        requires parts { All (λ a. a < length self.old.arena.nodes.items) parts.now }
        ensures { OnOk result (Adds self.old self.new (λ t. Lists (each t parts.now) (t at))) }
    {
        let element = self.opened(alloc, at, Head::Named(LIST), 1)?;
        self.are_all(parts, &element)?;
        Ok(())
    }

    fn add_chain(&mut self, parts: &[u32], at: u32) -> Result<(), AllocError>
        requires system { IsSystem self.old }
        requires at { at < length self.old.arena.nodes.items }
        requires parts { All (λ a. a < length self.old.arena.nodes.items) parts.now }
        ensures { OnOk result (Adds self.old self.new (ChainIs parts.now at)) }
    {
        let count = parts.len();
        if count == 0 {
            self.is(at, Head::Unit, &[])?;
            return Ok(());
        }
        self.same(at, parts[count - 1])?;
        Ok(())
    }

    pub(crate) fn add_row_of(
        &mut self,
        alloc: Global,
        constructors: &Constructors,
        head: Row,
        parts: &[u32],
        at: u32,
    ) -> Result<(), AllocError>
        requires system { IsSystem self.old }
        requires whole { AreWhole constructors.now }
        requires at { at < length self.old.arena.nodes.items }
        requires parts { All (λ a. a < length self.old.arena.nodes.items) parts.now }
        ensures grows { OnOk result (IsLonger self.old self.new) }
        ensures adds { OnOk result ((g : Signature) → HasSignature constructors.now g
            → Adds self.old self.new (RowIs g (row_view head) parts.now at)) }
    {
        match head {
            Row::Tuple => self.is(at, Head::Tuple, parts),
            Row::Build(name, _) => {
                let found = self.built(alloc, constructors, name, at, parts.len())?;
                match found {
                    Some(roots) => {
                        self.are_same(parts, &roots)?;
                        Ok(())
                    }
                    None => Ok(()),
                }
            }
            Row::ListOf => {
                self.add_list(alloc, parts, at)?;
                Ok(())
            }
            Row::Chain => self.add_chain(parts, at),
        }
    }
}
