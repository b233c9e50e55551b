// What blocks and operations with branches are asked for.
ghost use Rattle.std.specs.Prelude.{◌<◌, ◌∷◌, ◌++◌, IfOk, OnOk};
ghost use Rattle.lq_refined_rules.specs.Checks.Operation.{bind, body_context, body_type, type_of};
ghost use Rattle.lq_refined_rules.specs.Checks.Pure.{formula_of};
ghost use Rattle.lq_refined_rules.specs.Checks.Tree.{has_default, match_on};
ghost use Rattle.lq_refined_rules.specs.Obligations.Obligations.{each, of_block, of_constructor, of_default, of_first, of_operation, of_recursive};
ghost use Rattle.lq_refined_types.specs.Parts.Part.{known};
ghost use Rattle.lq_refined_templates.specs.Programs.BlockView.{arms_view, binding_view, bindings_view, block_view, operation_view};
ghost use Rattle.lq_refined_templates.specs.Programs.PureView.{pure_view, use_view};
ghost use Rattle.lq_logic_predicates.specs.Formula.{negation};
ghost use Rattle.lq_refined_types.specs.Types.Context.{guard};
ghost use Rattle.lq_refined_subtyping.specs.Table.Whole.{count_of, refined_at};
ghost use Rattle.lq_generate_operations.specs.Basis.Basis.{constructors_at, scopes_of};
ghost use Rattle.lq_generate_implications.specs.Walk.Asking.{Asks, IsSound};
ghost use Rattle.lq_generate_implications.specs.Walk.Choosing.{of_arm};
ghost use Rattle.lq_generate_implications.specs.Walk.Through.{Ends, Enters, Passes};

use crate::walk::choosing::{arm_of, default_arm, has_default};
use crate::walk::walk::{TypeIn, Walk};
use lq_base_names::{Binder, Name, Place};
use lq_generate_operations::basis::Basis;
use lq_refined_templates::programs::{Arm, Binding, Block, Operation, Pure, Use};
use std::alloc::{AllocError, Global};

impl Walk {
    // The body of a function of a parameter, against the type of a number.
    #[cycle(walk)]
    pub(crate) fn body(
        &mut self,
        alloc: Global,
        basis: &Basis<'_>,
        env: u64,
        row: usize,
        parameter: Binder,
        body: &Block,
    ) -> Result<(), AllocError>
        requires sound { IsSound basis.now self.old env }
        requires row { row < count_of self.old.types }
        ensures { OnOk result (Asks basis.now self.old self.new env (λ P Γ. of_block P
            (body_context Γ parameter.0 (refined_at (scopes_of basis.now) self.old.types row)) (block_view body.now)
            (body_type (scopes_of basis.now) parameter.0 (refined_at (scopes_of basis.now) self.old.types row)))) }
    {
        let mark = self.names.len();
        let inner = self.enter_body(alloc, basis, env, parameter, row)?;
        self.block(alloc, basis, inner.env, body, inner.row)?;
        self.names.back_to(mark);
        Ok(())
    }

    // The branch in which a condition holds.
    #[cycle(walk)]
    fn when_true(
        &mut self,
        alloc: Global,
        basis: &Basis<'_>,
        env: u64,
        branch: &Block,
        condition: &Pure,
        expected: usize,
    ) -> Result<(), AllocError>
        requires sound { IsSound basis.now self.old env }
        requires expected { expected < count_of self.old.types }
        ensures { OnOk result (Asks basis.now self.old self.new env (λ P Γ. of_block P
            (guard (known (formula_of (pure_view condition.now))) ∷ Γ) (block_view branch.now)
            (refined_at (scopes_of basis.now) self.old.types expected))) }
    {
        let inner = self.enter_when(alloc, basis, env, condition)?;
        self.block(alloc, basis, inner, branch, expected)?;
        Ok(())
    }

    // The branch in which it doesn't.
    #[cycle(walk)]
    fn when_false(
        &mut self,
        alloc: Global,
        basis: &Basis<'_>,
        env: u64,
        branch: &Block,
        condition: &Pure,
        expected: usize,
    ) -> Result<(), AllocError>
        requires sound { IsSound basis.now self.old env }
        requires expected { expected < count_of self.old.types }
        ensures { OnOk result (Asks basis.now self.old self.new env (λ P Γ. of_block P
            (guard (known (negation (formula_of (pure_view condition.now)))) ∷ Γ) (block_view branch.now)
            (refined_at (scopes_of basis.now) self.old.types expected))) }
    {
        let inner = self.enter_unless(alloc, basis, env, condition)?;
        self.block(alloc, basis, inner, branch, expected)?;
        Ok(())
    }

    // An arm, in its own environment.
    #[cycle(walk)]
    fn arm(
        &mut self,
        alloc: Global,
        basis: &Basis<'_>,
        env: u64,
        used: Use,
        arm: &Arm,
        expected: usize,
    ) -> Result<(), AllocError>
        requires sound { IsSound basis.now self.old env }
        requires expected { expected < count_of self.old.types }
        ensures { OnOk result (Asks basis.now self.old self.new env (λ P Γ. of_arm P Γ (use_view used) arm.now
            (refined_at (scopes_of basis.now) self.old.types expected))) }
    {
        let mark = self.names.len();
        let inner = self.enter_arm(alloc, basis, env, used, &arm.pattern)?;
        self.block(alloc, basis, inner, &arm.body, expected)?;
        self.names.back_to(mark);
        Ok(())
    }

    // The arm of a constructor, or that there is no value of it.
    #[cycle(walk)]
    fn constructor(
        &mut self,
        alloc: Global,
        basis: &Basis<'_>,
        env: u64,
        place: Place,
        used: Use,
        covered: bool,
        constructor: Name,
        arms: &[Arm],
        expected: usize,
    ) -> Result<(), AllocError>
        requires sound { IsSound basis.now self.old env }
        requires expected { expected < count_of self.old.types }
        ensures { OnOk result (Asks basis.now self.old self.new env (λ P Γ. of_constructor P Γ place (use_view used) covered
            constructor.0 (refined_at (scopes_of basis.now) self.old.types expected) (arms_view arms.now))) }
    {
        match arm_of(constructor, arms) {
            Some(at) => self.arm(alloc, basis, env, used, &arms[at], expected),
            None => self.missing(alloc, basis, env, place, used, covered, constructor),
        }
    }

    // The first arm that takes all values.
    #[cycle(walk)]
    fn rest(
        &mut self,
        alloc: Global,
        basis: &Basis<'_>,
        env: u64,
        used: Use,
        arms: &[Arm],
        expected: usize,
    ) -> Result<(), AllocError>
        requires sound { IsSound basis.now self.old env }
        requires expected { expected < count_of self.old.types }
        ensures { OnOk result (Asks basis.now self.old self.new env (λ P Γ. of_default P Γ (use_view used) (arms_view arms.now)
            (refined_at (scopes_of basis.now) self.old.types expected))) }
    {
        match default_arm(arms) {
            Some(at) => self.arm(alloc, basis, env, used, &arms[at], expected),
            None => Ok(()),
        }
    }

    // The first arm, where the variable is of no datatype.
    #[cycle(walk)]
    fn first(
        &mut self,
        alloc: Global,
        basis: &Basis<'_>,
        env: u64,
        used: Use,
        arms: &[Arm],
        expected: usize,
    ) -> Result<(), AllocError>
        requires sound { IsSound basis.now self.old env }
        requires expected { expected < count_of self.old.types }
        ensures { OnOk result (Asks basis.now self.old self.new env (λ P Γ. of_first P Γ (use_view used) (arms_view arms.now)
            (refined_at (scopes_of basis.now) self.old.types expected))) }
    {
        if arms.is_empty() {
            return Ok(());
        }
        self.arm(alloc, basis, env, used, &arms[0], expected)
    }

    // The arms of a match on a datatype: those of its constructors in the order of their definition, then the one that takes all values.
    #[cycle(walk)]
    fn datatype(
        &mut self,
        alloc: Global,
        basis: &Basis<'_>,
        env: u64,
        place: Place,
        used: Use,
        name: Name,
        arms: &[Arm],
        expected: usize,
    ) -> Result<(), AllocError>
        requires sound { IsSound basis.now self.old env }
        requires expected { expected < count_of self.old.types }
        ensures { OnOk result (Asks basis.now self.old self.new env (λ P Γ. each (λ c. of_constructor P Γ place (use_view used)
            (has_default (arms_view arms.now)) c (refined_at (scopes_of basis.now) self.old.types expected) (arms_view arms.now))
            (constructors_at basis.now.declared.now name.0)
            ++ of_default P Γ (use_view used) (arms_view arms.now) (refined_at (scopes_of basis.now) self.old.types expected))) }
    {
        let covered = has_default(arms);
        for constructor in basis.declared.constructors_of(name) {
            self.constructor(
                alloc,
                basis,
                env,
                place,
                used,
                covered,
                *constructor,
                arms,
                expected,
            )?;
        }
        self.rest(alloc, basis, env, used, arms, expected)?;
        Ok(())
    }

    // The arms of a match.
    #[cycle(walk)]
    fn arms(
        &mut self,
        alloc: Global,
        basis: &Basis<'_>,
        env: u64,
        place: Place,
        point: usize,
        used: Use,
        arms: &[Arm],
        expected: usize,
    ) -> Result<(), AllocError>
        requires sound { IsSound basis.now self.old env }
        requires expected { expected < count_of self.old.types }
        ensures { OnOk result (Asks basis.now self.old self.new env (λ P Γ. of_operation P Γ place
            (match_on point (use_view used) (arms_view arms.now)) (refined_at (scopes_of basis.now) self.old.types expected))) }
    {
        let found = self.matched(alloc, basis, env, used)?;
        match found {
            Some(name) => self.datatype(alloc, basis, env, place, used, name, arms, expected),
            None => self.first(alloc, basis, env, used, arms, expected),
        }
    }

    // An operation at a place, against the type of a number.
    #[cycle(walk)]
    fn operation(
        &mut self,
        alloc: Global,
        basis: &Basis<'_>,
        env: u64,
        place: Place,
        operation: &Operation,
        expected: usize,
    ) -> Result<(), AllocError>
        requires sound { IsSound basis.now self.old env }
        requires expected { expected < count_of self.old.types }
        ensures { OnOk result (Asks basis.now self.old self.new env (λ P Γ. of_operation P Γ place (operation_view operation.now)
            (refined_at (scopes_of basis.now) self.old.types expected))) }
    {
        match operation {
            Operation::Fun(_, parameter, body) => self.body(
                alloc, basis, env, expected, *parameter, body,
            ),
            Operation::If(_, condition, then, otherwise) => {
                self.when_true(alloc, basis, env, then, condition, expected)?;
                self.when_false(alloc, basis, env, otherwise, condition, expected)
            }
            Operation::Match(point, used, arms) => self.arms(
                alloc, basis, env, place, *point, *used, arms, expected,
            ),
            _ => self.leaf(alloc, basis, env, place, operation),
        }
    }

    // A name bound to an operation.
    #[cycle(walk)]
    fn value(
        &mut self,
        alloc: Global,
        basis: &Basis<'_>,
        env: u64,
        name: Binder,
        place: Place,
        operation: &Operation,
    ) -> Result<u64, AllocError>
        requires { IsSound basis.now self.old env }
        ensures { IfOk result (λ n. Enters basis.now self.old self.new env n
            (λ P Γ. bind name.0 (type_of P Γ (operation_view operation.now)) Γ)
            (λ P Γ. of_operation P Γ place (operation_view operation.now) (type_of P Γ (operation_view operation.now)))) }
    {
        let row = self.given(alloc, basis, env, operation)?;
        self.operation(alloc, basis, env, place, operation, row)?;
        let inner = self.enter_name(alloc, basis, env, name, row)?;
        Ok(inner)
    }

    // A recursive function.
    #[cycle(walk)]
    pub(crate) fn function(
        &mut self,
        alloc: Global,
        basis: &Basis<'_>,
        env: u64,
        name: Binder,
        point: usize,
        parameter: Binder,
        body: &Block,
    ) -> Result<u64, AllocError>
        requires { IsSound basis.now self.old env }
        ensures { IfOk result (λ n. Enters basis.now self.old self.new env n (λ P Γ. bind name.0 (P.template point) Γ)
            (λ P Γ. of_recursive P Γ name.0 point parameter.0 (block_view body.now))) }
    {
        let row = self.template(alloc, basis, env, point)?;
        let inner = self.enter_name(alloc, basis, env, name, row)?;
        self.body(alloc, basis, inner, row, parameter, body)?;
        Ok(inner)
    }

    // What a binding asks for, and the number of the environment behind it.
    #[cycle(walk)]
    fn binding(
        &mut self,
        alloc: Global,
        basis: &Basis<'_>,
        env: u64,
        binding: &Binding,
    ) -> Result<u64, AllocError>
        requires { IsSound basis.now self.old env }
        ensures { IfOk result (λ n. Passes basis.now self.old self.new env n (binding_view binding.now)) }
    {
        match binding {
            Binding::Value(name, place, operation) => self.value(
                alloc, basis, env, *name, *place, operation,
            ),
            Binding::Function(name, point, parameter, body) => self.function(
                alloc, basis, env, *name, *point, *parameter, body,
            ),
        }
    }

    // The same of bindings in a row.
    #[cycle(walk)]
    fn through(
        &mut self,
        alloc: Global,
        basis: &Basis<'_>,
        env: u64,
        bindings: &[Binding],
    ) -> Result<u64, AllocError>
        requires { IsSound basis.now self.old env }
        ensures { IfOk result (λ n. Passes basis.now self.old self.new env n (bindings_view bindings.now)) }
    {
        let mut at = env;
        for binding in bindings {
            at = self.binding(alloc, basis, at, binding)?;
        }
        Ok(at)
    }

    // A block against the type of a number. Its names are let go again.
    #[cycle(walk)]
    pub(crate) fn block(
        &mut self,
        alloc: Global,
        basis: &Basis<'_>,
        env: u64,
        block: &Block,
        expected: usize,
    ) -> Result<(), AllocError>
        requires sound { IsSound basis.now self.old env }
        requires expected { expected < count_of self.old.types }
        ensures { OnOk result (Asks basis.now self.old self.new env (λ P Γ. of_block P Γ (block_view block.now)
            (refined_at (scopes_of basis.now) self.old.types expected))) }
    {
        let mark = self.names.len();
        let inner = self.through(alloc, basis, env, &block.bindings)?;
        self.operation(alloc, basis, inner, block.place, &block.last, expected)?;
        self.flows(alloc, basis, inner, block.place, &block.last, expected)?;
        self.names.back_to(mark);
        Ok(())
    }

    // A block of which no type is expected: its last environment, and its type. Its names stay.
    pub(crate) fn to_last(
        &mut self,
        alloc: Global,
        basis: &Basis<'_>,
        env: u64,
        block: &Block,
    ) -> Result<TypeIn, AllocError>
        requires { IsSound basis.now self.old env }
        ensures { IfOk result (λ l. Ends basis.now self.old self.new env l.env l.row (block_view block.now)) }
    {
        let inner = self.through(alloc, basis, env, &block.bindings)?;
        let row = self.given(alloc, basis, inner, &block.last)?;
        self.operation(alloc, basis, inner, block.place, &block.last, row)?;
        Ok(TypeIn { env: inner, row })
    }
}
