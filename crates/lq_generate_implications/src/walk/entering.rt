// The environments that the walk enters: behind names that are bound, of functions' bodies, of arms and of branches.
ghost use Rattle.std.specs.Prelude.{◌≡◌, ◌<◌, [], ◌∷◌, IfOk, OnOk};
ghost use Rattle.lq_refined_rules.specs.Checks.Match.{in_arm};
ghost use Rattle.lq_refined_rules.specs.Checks.Operation.{bind, body_context, body_type};
ghost use Rattle.lq_refined_rules.specs.Checks.Pure.{formula_of};
ghost use Rattle.lq_refined_types.specs.Parts.Part.{known};
ghost use Rattle.lq_refined_templates.specs.Programs.BlockView.{pattern_view};
ghost use Rattle.lq_refined_templates.specs.Programs.PureView.{pure_view, use_view};
ghost use Rattle.lq_logic_predicates.specs.Formula.{negation};
ghost use Rattle.lq_refined_types.specs.Types.Context.{guard};
ghost use Rattle.lq_refined_subtyping.specs.Table.Whole.{count_of, refined_at};
ghost use Rattle.lq_generate_operations.specs.Basis.Basis.{scopes_of};
ghost use Rattle.lq_generate_operations.specs.Basis.Names.{bound};
ghost use Rattle.lq_generate_implications.specs.Walk.Asking.{Asks, IsSound};
ghost use Rattle.lq_generate_implications.specs.Walk.Choosing.{of_missing, Matches};
ghost use Rattle.lq_generate_implications.specs.Walk.Through.{Enters};

use crate::walk::walk::{TypeIn, Walk};
use lq_base_names::{Binder, Name, Place};
use lq_generate_operations::basis::Basis;
use lq_generate_operations::operations::{
    bind, body_types, in_arm, matched, missing_context, unless, when,
};
use lq_logic_predicates::Pred;
use lq_refined_substitution::implications::Reason;
use lq_refined_templates::programs::{Pattern, Pure, Use};
use std::alloc::{AllocError, Global};

impl Walk {
    // A name with the type of a number.
    pub(crate) fn enter_name(
        &mut self,
        alloc: Global,
        basis: &Basis<'_>,
        env: u64,
        name: Binder,
        row: usize,
    ) -> Result<u64, AllocError>
        requires sound { IsSound basis.now self.old env }
        requires row { row < count_of self.old.types }
        ensures { IfOk result (λ n. Enters basis.now self.old self.new env n
            (λ P Γ. bind name.0 (refined_at (scopes_of basis.now) self.old.types row) Γ) (λ P Γ. [])) }
    {
        let inner = bind(
            alloc,
            &mut self.list,
            &mut self.types,
            basis,
            &mut self.names,
            name,
            row,
            env,
        )?;
        Ok(inner)
    }

    // The body of a function of a parameter that is checked against the type of a number: its environment, and the body's type.
    pub(crate) fn enter_body(
        &mut self,
        alloc: Global,
        basis: &Basis<'_>,
        env: u64,
        parameter: Binder,
        row: usize,
    ) -> Result<TypeIn, AllocError>
        requires sound { IsSound basis.now self.old env }
        requires row { row < count_of self.old.types }
        ensures enters { IfOk result (λ i. Enters basis.now self.old self.new env i.env
            (λ P Γ. body_context Γ parameter.0 (refined_at (scopes_of basis.now) self.old.types row)) (λ P Γ. [])) }
        ensures there { IfOk result (λ i. i.row < count_of self.new.types) }
        ensures refined { IfOk result (λ i. refined_at (scopes_of basis.now) self.new.types i.row
            ≡ body_type (scopes_of basis.now) parameter.0 (refined_at (scopes_of basis.now) self.old.types row)) }
    {
        let found = body_types(alloc, &mut self.types, basis.scopes, parameter, row)?;
        let inner = bind(
            alloc,
            &mut self.list,
            &mut self.types,
            basis,
            &mut self.names,
            parameter,
            found.parameter,
            env,
        )?;
        Ok(TypeIn {
            env: inner,
            row: found.result,
        })
    }

    // An arm, with what its pattern names.
    pub(crate) fn enter_arm(
        &mut self,
        alloc: Global,
        basis: &Basis<'_>,
        env: u64,
        used: Use,
        pattern: &Pattern,
    ) -> Result<u64, AllocError>
        requires { IsSound basis.now self.old env }
        ensures { IfOk result (λ n. Enters basis.now self.old self.new env n
            (λ P Γ. in_arm P Γ (use_view used) (pattern_view pattern.now)) (λ P Γ. [])) }
    {
        let inner = in_arm(
            alloc,
            &mut self.list,
            &mut self.types,
            basis,
            &mut self.names,
            used,
            pattern,
            env,
        )?;
        Ok(inner)
    }

    // The branch in which a condition holds.
    pub(crate) fn enter_when(
        &mut self,
        alloc: Global,
        basis: &Basis<'_>,
        env: u64,
        condition: &Pure,
    ) -> Result<u64, AllocError>
        requires { IsSound basis.now self.old env }
        ensures enters { IfOk result (λ n. Enters basis.now self.old self.new env n
            (λ P Γ. guard (known (formula_of (pure_view condition.now))) ∷ Γ) (λ P Γ. [])) }
        ensures names { OnOk result (bound self.new.names ≡ bound self.old.names) }
    {
        let inner = when(alloc, &mut self.list, condition, env)?;
        Ok(inner)
    }

    // The branch in which it doesn't.
    pub(crate) fn enter_unless(
        &mut self,
        alloc: Global,
        basis: &Basis<'_>,
        env: u64,
        condition: &Pure,
    ) -> Result<u64, AllocError>
        requires { IsSound basis.now self.old env }
        ensures enters { IfOk result (λ n. Enters basis.now self.old self.new env n
            (λ P Γ. guard (known (negation (formula_of (pure_view condition.now)))) ∷ Γ) (λ P Γ. [])) }
        ensures names { OnOk result (bound self.new.names ≡ bound self.old.names) }
    {
        let inner = unless(alloc, &mut self.list, condition, env)?;
        Ok(inner)
    }

    // A constructor that no arm names is impossible, if no arm takes all values.
    pub(crate) fn missing(
        &mut self,
        alloc: Global,
        basis: &Basis<'_>,
        env: u64,
        place: Place,
        used: Use,
        covered: bool,
        constructor: Name,
    ) -> Result<(), AllocError>
        requires { IsSound basis.now self.old env }
        ensures { OnOk result (Asks basis.now self.old self.new env (λ P Γ. of_missing P Γ place (use_view used) covered constructor.0)) }
    {
        if covered {
            return Ok(());
        }
        let inner = missing_context(alloc, &mut self.list, basis, used, constructor, env)?;
        self.demand(basis, Pred::False, inner, place, Reason::Case)
    }

    // The datatype of a match's variable, where it has one.
    pub(crate) fn matched(
        &mut self,
        alloc: Global,
        basis: &Basis<'_>,
        env: u64,
        used: Use,
    ) -> Result<Option<Name>, AllocError>
        requires { IsSound basis.now self.old env }
        ensures { IfOk result (λ found. Matches basis.now self.old self.new env (use_view used) found) }
    {
        let found = matched(alloc, &mut self.types, basis, &self.names, used)?;
        Ok(found)
    }
}
