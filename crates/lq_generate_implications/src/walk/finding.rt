// The types that operands and operations have in an environment.
ghost use Rattle.std.specs.Prelude.{IfOk};
ghost use Rattle.lq_refined_rules.specs.Checks.Operation.{element_at, type_of};
ghost use Rattle.lq_refined_rules.specs.Checks.Pure.{pure_type, type_of_use};
ghost use Rattle.lq_refined_templates.specs.Programs.BlockView.{operation_view};
ghost use Rattle.lq_refined_templates.specs.Programs.PureView.{pure_view, use_view};
ghost use Rattle.lq_refined_types.specs.Types.Refined.{argument_of, element_of, unit_type};
ghost use Rattle.lq_generate_implications.specs.Walk.Asking.{Finds, IsSound};

use crate::walk::walk::Walk;
use lq_generate_operations::basis::{Basis, pure_type, template, type_of_use};
use lq_generate_operations::operations::{element_at, element_of, function_type, type_of};
use lq_refined_substitution::substitution::Parts;
use lq_refined_subtyping::table::Form;
use lq_refined_templates::programs::{Operation, Pure, Use};
use std::alloc::{AllocError, Global};

impl Walk {
    // Unit.
    pub(crate) fn unit(
        &mut self,
        alloc: Global,
        basis: &Basis<'_>,
        env: u64,
    ) -> Result<usize, AllocError>
        requires { IsSound basis.now self.old env }
        ensures { IfOk result (λ r. Finds basis.now self.old self.new env r (λ P Γ. unit_type)) }
    {
        let made = self.types.push(Form::Unit, Parts::new(alloc))?;
        Ok(made)
    }

    // The template of a point.
    pub(crate) fn template(
        &mut self,
        alloc: Global,
        basis: &Basis<'_>,
        env: u64,
        point: usize,
    ) -> Result<usize, AllocError>
        requires { IsSound basis.now self.old env }
        ensures { IfOk result (λ r. Finds basis.now self.old self.new env r (λ P Γ. P.template point)) }
    {
        let made = template(alloc, &mut self.types, basis, point)?;
        Ok(made)
    }

    // The type of an operand.
    pub(crate) fn operand(
        &mut self,
        alloc: Global,
        basis: &Basis<'_>,
        env: u64,
        operand: &Pure,
    ) -> Result<usize, AllocError>
        requires { IsSound basis.now self.old env }
        ensures { IfOk result (λ r. Finds basis.now self.old self.new env r (λ P Γ. pure_type P Γ (pure_view operand.now))) }
    {
        let made = pure_type(alloc, &mut self.types, basis, &self.names, operand)?;
        Ok(made)
    }

    // What a function takes.
    pub(crate) fn argument(
        &mut self,
        alloc: Global,
        basis: &Basis<'_>,
        env: u64,
        function: &Pure,
    ) -> Result<usize, AllocError>
        requires { IsSound basis.now self.old env }
        ensures { IfOk result (λ r. Finds basis.now self.old self.new env r (λ P Γ. argument_of (pure_type P Γ (pure_view function.now)))) }
    {
        let at = pure_type(alloc, &mut self.types, basis, &self.names, function)?;
        let found = function_type(alloc, &mut self.types, basis.scopes, at)?;
        Ok(found.argument)
    }

    // The elements of an array.
    pub(crate) fn element(
        &mut self,
        alloc: Global,
        basis: &Basis<'_>,
        env: u64,
        used: Use,
    ) -> Result<usize, AllocError>
        requires { IsSound basis.now self.old env }
        ensures { IfOk result (λ r. Finds basis.now self.old self.new env r (λ P Γ. element_of (type_of_use P Γ (use_view used)))) }
    {
        let at = type_of_use(alloc, &mut self.types, basis, &self.names, used)?;
        let found = element_of(alloc, &mut self.types, basis.scopes, at)?;
        Ok(found)
    }

    // The element of a map's template at a key.
    pub(crate) fn keyed(
        &mut self,
        alloc: Global,
        basis: &Basis<'_>,
        env: u64,
        point: usize,
        key: &Pure,
    ) -> Result<usize, AllocError>
        requires { IsSound basis.now self.old env }
        ensures { IfOk result (λ r. Finds basis.now self.old self.new env r
            (λ P Γ. element_at P.setting.scopes (pure_view key.now) (P.template point))) }
    {
        let at = template(alloc, &mut self.types, basis, point)?;
        let found = element_at(alloc, &mut self.types, basis.scopes, key, at)?;
        Ok(found)
    }

    // The type that an operation gives.
    pub(crate) fn given(
        &mut self,
        alloc: Global,
        basis: &Basis<'_>,
        env: u64,
        operation: &Operation,
    ) -> Result<usize, AllocError>
        requires { IsSound basis.now self.old env }
        ensures { IfOk result (λ r. Finds basis.now self.old self.new env r (λ P Γ. type_of P Γ (operation_view operation.now))) }
    {
        let made = type_of(alloc, &mut self.types, basis, &self.names, operation)?;
        Ok(made)
    }
}
