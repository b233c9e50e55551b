// What a program is asked for.
ghost use Rattle.std.specs.Prelude.{◌≡◌, ◌<◌, [], All, IfOk, OnOk, cond, length, map};
ghost use Rattle.lq_generate_implications.specs.Obligations.Views.{stated};
ghost use Rattle.lq_generate_implications.specs.Obligations.Views as asked;
ghost use Rattle.lq_refined_rules.specs.Checks.Basis as checks;
ghost use Rattle.lq_refined_rules.specs.Checks.Listing.{from};
ghost use Rattle.lq_refined_rules.specs.Checks.Tree.{define, has_template, run_any, run_unit};
ghost use Rattle.lq_refined_substitution.specs.Implications.Views.{count_of as implication_count, environment_lists, implications_of};
ghost use Rattle.lq_refined_rules.specs.Obligations.Obligations.{obligations_of, subtyping};
ghost use Rattle.lq_refined_templates.specs.Programs.BlockView.{block_view, item_view, program_view};
ghost use Rattle.lq_refined_subtyping.specs.Table.Whole.{count_of, refined_at, Grows};
ghost use Rattle.lq_refined_types.specs.Subtyping.Implication.{of_flow};
ghost use Rattle.lq_generate_operations.specs.Basis.Basis.{scopes_of, IsThere, Stands};
ghost use Rattle.lq_generate_implications.specs.Walk.Asking.{stated_in, Asks, IsSound};
ghost use Rattle.lq_generate_implications.specs.Walk.Through.{Steps};

use crate::walk::choosing::has_template;
use crate::walk::walk::Walk;
use lq_base_names::{Binder, Place};
use lq_generate_operations::basis::{Basis, Names};
use lq_refined_substitution::implications::{Implications, Reason};
use lq_refined_subtyping::table::RefinedTypes;
use lq_refined_templates::programs::{Block, Item};
use std::alloc::{AllocError, Global};

impl Walk {
    // The type of a definition's block is that of the definition's own template, where it has one.
    fn own(
        &mut self,
        alloc: Global,
        basis: &Basis<'_>,
        env: u64,
        place: Place,
        point: usize,
        block: &Block,
        row: usize,
    ) -> Result<(), AllocError>
        requires sound { IsSound basis.now self.old env }
        requires row { row < count_of self.old.types }
        ensures { OnOk result (Asks basis.now self.old self.new env (λ P Γ. cond (has_template (block_view block.now))
            (subtyping P Γ (refined_at (scopes_of basis.now) self.old.types row) (P.template point) (from place of_flow)) [])) }
    {
        if has_template(block) {
            let right = self.template(alloc, basis, env, point)?;
            return self.fits(basis, (row, right), env, place, Reason::Flow);
        }
        Ok(())
    }

    // A definition: its block, its own template where it has one, and its name.
    fn define(
        &mut self,
        alloc: Global,
        basis: &Basis<'_>,
        env: u64,
        name: Binder,
        place: Place,
        point: usize,
        block: &Block,
    ) -> Result<u64, AllocError>
        requires { IsSound basis.now self.old env }
        ensures { IfOk result (λ n. Steps basis.now self.old self.new env n (λ rest. define name.0 place point (block_view block.now) rest)) }
    {
        let last = self.to_last(alloc, basis, env, block)?;
        self.own(alloc, basis, last.env, place, point, block, last.row)?;
        let inner = self.enter_name(alloc, basis, last.env, name, last.row)?;
        Ok(inner)
    }

    // A block whose value is unit. Its names are let go again.
    fn run_unit(
        &mut self,
        alloc: Global,
        basis: &Basis<'_>,
        env: u64,
        block: &Block,
    ) -> Result<u64, AllocError>
        requires { IsSound basis.now self.old env }
        ensures { IfOk result (λ n. Steps basis.now self.old self.new env n (λ rest. run_unit (block_view block.now) rest)) }
    {
        let expected = self.unit(alloc, basis, env)?;
        self.block(alloc, basis, env, block, expected)?;
        Ok(env)
    }

    // A block whose value is let go, and its names with it.
    fn run_any(
        &mut self,
        alloc: Global,
        basis: &Basis<'_>,
        env: u64,
        block: &Block,
    ) -> Result<u64, AllocError>
        requires { IsSound basis.now self.old env }
        ensures { IfOk result (λ n. Steps basis.now self.old self.new env n (λ rest. run_any (block_view block.now) rest)) }
    {
        let mark = self.names.len();
        let _last = self.to_last(alloc, basis, env, block)?;
        self.names.back_to(mark);
        Ok(env)
    }

    // An item, and the number of the environment behind it.
    fn item(
        &mut self,
        alloc: Global,
        basis: &Basis<'_>,
        env: u64,
        item: &Item,
    ) -> Result<u64, AllocError>
        requires { IsSound basis.now self.old env }
        ensures { IfOk result (λ n. Steps basis.now self.old self.new env n (item_view item.now)) }
    {
        match item {
            Item::Define(name, place, point, block) => self.define(
                alloc, basis, env, *name, *place, *point, block,
            ),
            Item::DefineFunction(name, point, parameter, body) => self.function(
                alloc, basis, env, *name, *point, *parameter, body,
            ),
            Item::RunUnit(block) => self.run_unit(alloc, basis, env, block),
            Item::RunAny(block) => self.run_any(alloc, basis, env, block),
        }
    }
}

/// What a program is asked for, over a basis whose types stand in the table: its obligations in their order, with the environments that they
/// name and the types, which only grow.
pub fn ask_all(
    alloc: Global,
    types: RefinedTypes,
    basis: &Basis<'_>,
    program: &[Item],
) -> Result<Walk, AllocError>
    requires { IsThere (count_of types) basis.now }
    ensures asked { IfOk result (λ w. (P : checks.Basis) → Stands P basis.now types
        → stated_in basis.now w ≡ map (stated P) (obligations_of P [] (program_view program.now))) }
    ensures there { IfOk result (λ w. All (asked.IsThere (length (environment_lists w.list)) (count_of w.types)) w.asked.items) }
    ensures basis { IfOk result (λ w. IsThere (count_of w.types) basis.now) }
    ensures implications { IfOk result (λ w. implications_of w.list ≡ []) }
    ensures count { IfOk result (λ w. implication_count w.list ≡ 0) }
    ensures grows { IfOk result (λ w. Grows types w.types) }
{
    let mut walk = Walk {
        types,
        list: Implications::new(alloc)?,
        names: Names::new(alloc),
        asked: Vec::new(alloc),
    };
    let mut env = 0;
    for item in program {
        env = walk.item(alloc, basis, env, item)?;
    }
    Ok(walk)
}
