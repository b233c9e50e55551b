// What operations without branches are asked for.
ghost use Rattle.std.specs.Prelude.{◌≡◌, ◌<◌, [], All, false, cond, IfOk, OnOk};
ghost use Rattle.lq_refined_rules.specs.Checks.Listing.{from};
ghost use Rattle.lq_refined_rules.specs.Checks.Operation.{type_of};
ghost use Rattle.lq_refined_rules.specs.Checks.Pure.{pure_type};
ghost use Rattle.lq_refined_rules.specs.Checks.Tree.{assert, assert_false, build, call, fetch, make, map_add, passes_on, store};
ghost use Rattle.lq_refined_rules.specs.Obligations.Obligations.{of_operation, subtyping};
ghost use Rattle.lq_refined_templates.specs.Programs.BlockView.{operation_view, quotient_view};
ghost use Rattle.lq_refined_templates.specs.Programs.PureView.{pure_view, pures_view, use_view};
ghost use Rattle.lq_refined_types.specs.Subtyping.Implication.{of_argument, of_flow};
ghost use Rattle.lq_refined_types.specs.Types.Refined.{type_at, Refined};
ghost use Rattle.lq_refined_subtyping.specs.Table.Forms.{each};
ghost use Rattle.lq_refined_subtyping.specs.Table.Whole.{count_of, refined_at};
ghost use Rattle.lq_generate_operations.specs.Basis.Basis.{scopes_of, types_in};
ghost use Rattle.lq_generate_implications.specs.Walk.Asking.{Asks, Finds, IsSound};

use crate::walk::choosing::passes_on;
use crate::walk::walk::Walk;
use lq_base_names::{Name, Place};
use lq_generate_operations::basis::{Basis, formula};
use lq_generate_operations::operations::{field_types, in_range, not_negative, not_zero, row_at};
use lq_logic_predicates::Pred;
use lq_refined_substitution::implications::Reason;
use lq_refined_templates::programs::{Operation, Pure, Quotient, Use};
use std::alloc::{AllocError, Global};

impl Walk {
    // The operand of a call has the type that the function takes.
    pub(crate) fn call(
        &mut self,
        alloc: Global,
        basis: &Basis<'_>,
        env: u64,
        place: Place,
        function: &Pure,
        operand: &Pure,
    ) -> Result<(), AllocError>
        requires { IsSound basis.now self.old env }
        ensures { OnOk result ((t : Refined) → Asks basis.now self.old self.new env
            (λ P Γ. of_operation P Γ place (call (pure_view function.now) (pure_view operand.now)) t)) }
    {
        let left = self.operand(alloc, basis, env, operand)?;
        let right = self.argument(alloc, basis, env, function)?;
        self.fits(basis, (left, right), env, place, Reason::Argument)
    }

    // The type of a place in a row; past the end it is unit.
    fn row_at(
        &mut self,
        alloc: Global,
        basis: &Basis<'_>,
        env: u64,
        rows: &[usize],
        at: usize,
    ) -> Result<usize, AllocError>
        requires sound { IsSound basis.now self.old env }
        requires rows { All (λ r. r < count_of self.old.types) rows.now }
        ensures { IfOk result (λ r. Finds basis.now self.old self.new env r
            (λ P Γ. type_at (each (types_in basis.now self.old.types) rows.now) at)) }
    {
        let made = row_at(alloc, &mut self.types, rows, at)?;
        Ok(made)
    }

    // An operand has the type of its place in a row.
    fn operand_fits(
        &mut self,
        alloc: Global,
        basis: &Basis<'_>,
        env: u64,
        place: Place,
        operand: &Pure,
        rows: &[usize],
        at: usize,
    ) -> Result<(), AllocError>
        requires sound { IsSound basis.now self.old env }
        requires rows { All (λ r. r < count_of self.old.types) rows.now }
        ensures { OnOk result (Asks basis.now self.old self.new env (λ P Γ. subtyping P Γ (pure_type P Γ (pure_view operand.now))
            (type_at (each (types_in basis.now self.old.types) rows.now) at) (from place of_argument))) }
    {
        let right = self.row_at(alloc, basis, env, rows, at)?;
        let left = self.operand(alloc, basis, env, operand)?;
        self.fits(basis, (left, right), env, place, Reason::Argument)
    }

    // The operands of a constructor have the types of its fields.
    pub(crate) fn build(
        &mut self,
        alloc: Global,
        basis: &Basis<'_>,
        env: u64,
        place: Place,
        point: usize,
        constructor: Name,
        operands: &[Pure],
    ) -> Result<(), AllocError>
        requires { IsSound basis.now self.old env }
        ensures { OnOk result ((t : Refined) → Asks basis.now self.old self.new env
            (λ P Γ. of_operation P Γ place (build point constructor.0 (pures_view operands.now)) t)) }
    {
        let rows = field_types(
            alloc,
            &mut self.types,
            basis,
            &self.names,
            point,
            constructor,
            operands,
        )?;
        for at in 0..operands.len() {
            self.operand_fits(alloc, basis, env, place, &operands[at], &rows, at)?;
        }
        Ok(())
    }

    // The length of a new array isn't below 0, and its element has the type of its template.
    pub(crate) fn make(
        &mut self,
        alloc: Global,
        basis: &Basis<'_>,
        env: u64,
        place: Place,
        point: usize,
        length: &Pure,
        element: &Pure,
    ) -> Result<(), AllocError>
        requires { IsSound basis.now self.old env }
        ensures { OnOk result ((t : Refined) → Asks basis.now self.old self.new env
            (λ P Γ. of_operation P Γ place (make point (pure_view length.now) (pure_view element.now)) t)) }
    {
        self.demand(
            basis,
            not_negative(alloc, length)?,
            env,
            place,
            Reason::Length,
        )?;
        let left = self.operand(alloc, basis, env, element)?;
        let right = self.template(alloc, basis, env, point)?;
        self.fits(basis, (left, right), env, place, Reason::Argument)
    }

    // An index is one of its array's.
    pub(crate) fn fetch(
        &mut self,
        alloc: Global,
        basis: &Basis<'_>,
        env: u64,
        place: Place,
        used: Use,
        index: &Pure,
    ) -> Result<(), AllocError>
        requires { IsSound basis.now self.old env }
        ensures { OnOk result ((t : Refined) → Asks basis.now self.old self.new env
            (λ P Γ. of_operation P Γ place (fetch (use_view used) (pure_view index.now)) t)) }
    {
        self.demand(
            basis,
            in_range(alloc, used, index)?,
            env,
            place,
            Reason::Index,
        )
    }

    // The same, and what is stored has the type of the elements.
    pub(crate) fn store(
        &mut self,
        alloc: Global,
        basis: &Basis<'_>,
        env: u64,
        place: Place,
        used: Use,
        index: &Pure,
        element: &Pure,
    ) -> Result<(), AllocError>
        requires { IsSound basis.now self.old env }
        ensures { OnOk result ((t : Refined) → Asks basis.now self.old self.new env
            (λ P Γ. of_operation P Γ place (store (use_view used) (pure_view index.now) (pure_view element.now)) t)) }
    {
        self.demand(
            basis,
            in_range(alloc, used, index)?,
            env,
            place,
            Reason::Index,
        )?;
        let left = self.operand(alloc, basis, env, element)?;
        let right = self.element(alloc, basis, env, used)?;
        self.fits(basis, (left, right), env, place, Reason::Argument)
    }

    // A divisor isn't 0.
    pub(crate) fn divide(
        &mut self,
        alloc: Global,
        basis: &Basis<'_>,
        env: u64,
        place: Place,
        quotient: Quotient,
        dividend: &Pure,
        divisor: &Pure,
    ) -> Result<(), AllocError>
        requires { IsSound basis.now self.old env }
        ensures { OnOk result ((t : Refined) → Asks basis.now self.old self.new env
            (λ P Γ. of_operation P Γ place (quotient_view quotient (pure_view dividend.now) (pure_view divisor.now)) t)) }
    {
        self.demand(
            basis,
            not_zero(alloc, divisor)?,
            env,
            place,
            Reason::Divisor,
        )
    }

    // What is asserted holds.
    pub(crate) fn assert(
        &mut self,
        alloc: Global,
        basis: &Basis<'_>,
        env: u64,
        place: Place,
        asserted: &Pure,
    ) -> Result<(), AllocError>
        requires { IsSound basis.now self.old env }
        ensures { OnOk result ((t : Refined) → Asks basis.now self.old self.new env
            (λ P Γ. of_operation P Γ place (assert (pure_view asserted.now)) t)) }
    {
        self.demand(
            basis,
            formula(alloc, asserted)?,
            env,
            place,
            Reason::Assertion,
        )
    }

    // `assert false` is never met.
    pub(crate) fn assert_false(
        &mut self,
        basis: &Basis<'_>,
        env: u64,
        place: Place,
        point: usize,
    ) -> Result<(), AllocError>
        requires { IsSound basis.now self.old env }
        ensures { OnOk result ((t : Refined) → Asks basis.now self.old self.new env
            (λ P Γ. of_operation P Γ place (assert_false point) t)) }
    {
        self.demand(basis, Pred::False, env, place, Reason::Assertion)
    }

    // What is added to a map, and the map, have the types of the template.
    pub(crate) fn map_add(
        &mut self,
        alloc: Global,
        basis: &Basis<'_>,
        env: u64,
        place: Place,
        point: usize,
        key: &Pure,
        element: &Pure,
        map: &Pure,
    ) -> Result<(), AllocError>
        requires { IsSound basis.now self.old env }
        ensures { OnOk result ((t : Refined) → Asks basis.now self.old self.new env
            (λ P Γ. of_operation P Γ place (map_add point (pure_view key.now) (pure_view element.now) (pure_view map.now)) t)) }
    {
        let left = self.operand(alloc, basis, env, element)?;
        let right = self.keyed(alloc, basis, env, point, key)?;
        self.fits(basis, (left, right), env, place, Reason::Argument)?;
        let left = self.operand(alloc, basis, env, map)?;
        let right = self.template(alloc, basis, env, point)?;
        self.fits(basis, (left, right), env, place, Reason::Argument)
    }

    // The type that an operation gives is the one that is expected of it, where its branches or its body aren't checked against that.
    pub(crate) fn flows(
        &mut self,
        alloc: Global,
        basis: &Basis<'_>,
        env: u64,
        place: Place,
        operation: &Operation,
        expected: usize,
    ) -> Result<(), AllocError>
        requires sound { IsSound basis.now self.old env }
        requires expected { expected < count_of self.old.types }
        ensures { OnOk result (Asks basis.now self.old self.new env (λ P Γ. cond (passes_on (operation_view operation.now)) []
            (subtyping P Γ (type_of P Γ (operation_view operation.now)) (refined_at (scopes_of basis.now) self.old.types expected)
            (from place of_flow)))) }
    {
        if passes_on(operation) {
            return Ok(());
        }
        let row = self.given(alloc, basis, env, operation)?;
        self.fits(basis, (row, expected), env, place, Reason::Flow)
    }

    // An operation without branches.
    pub(crate) fn leaf(
        &mut self,
        alloc: Global,
        basis: &Basis<'_>,
        env: u64,
        place: Place,
        operation: &Operation,
    ) -> Result<(), AllocError>
        requires { IsSound basis.now self.old env }
        ensures { OnOk result (passes_on (operation_view operation.now) ≡ false → (t : Refined) → Asks basis.now self.old self.new env
            (λ P Γ. of_operation P Γ place (operation_view operation.now) t)) }
    {
        match operation {
            Operation::Call(function, operand) => self.call(
                alloc, basis, env, place, function, operand,
            ),
            Operation::Build(point, constructor, operands) => self.build(
                alloc,
                basis,
                env,
                place,
                *point,
                *constructor,
                operands,
            ),
            Operation::Make(point, length, element) => self.make(
                alloc, basis, env, place, *point, length, element,
            ),
            Operation::Fetch(used, index) => self.fetch(alloc, basis, env, place, *used, index),
            Operation::Store(used, index, element) => self.store(
                alloc, basis, env, place, *used, index, element,
            ),
            Operation::Divide(quotient, dividend, divisor) => self.divide(
                alloc, basis, env, place, *quotient, dividend, divisor,
            ),
            Operation::Assert(asserted) => self.assert(alloc, basis, env, place, asserted),
            Operation::AssertFalse(point) => self.assert_false(basis, env, place, *point),
            Operation::MapAdd(point, key, element, map) => self.map_add(
                alloc, basis, env, place, *point, key, element, map,
            ),
            Operation::Pure(_)
            | Operation::Tuple(_)
            | Operation::Read(_)
            | Operation::Print(_)
            | Operation::MapEmpty(_)
            | Operation::MapFind(_, _) => Ok(()),
            Operation::Fun(_, _, _) | Operation::If(_, _, _, _) | Operation::Match(_, _, _) => Ok(
                (),
            ),
        }
    }
}
