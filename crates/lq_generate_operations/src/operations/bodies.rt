// The types of a function's parameter and of its body.
ghost use Rattle.std.specs.Prelude.{◌≡◌, ◌<◌, IfOk};
ghost use Rattle.lq_refined_rules.specs.Checks.Operation.{body_type};
ghost use Rattle.lq_refined_types.specs.Types.Refined.{argument_of};
ghost use Rattle.lq_refined_subtyping.specs.Table.Whole.{count_of, refined_at, Grows};
ghost use Rattle.lq_refined_substitution.specs.Substitution.Views.{scopes_view};

use crate::operations::shapes::function_type;
use lq_base_names::Binder;
use lq_refined_substitution::substitution::Scopes;
use lq_refined_subtyping::table::RefinedTypes;
use std::alloc::{AllocError, Global};

/// The numbers of the types of a function's parameter and of its body.
#[derive(Clone, Copy, Debug)]
pub struct BodyTypes {
    pub parameter: usize,
    pub result: usize,
}

/// Where a function of a parameter is checked against a type: the type of the parameter, and that of the body, in which the type's own name
/// of the argument is the parameter.
pub fn body_types(
    alloc: Global,
    types: &mut RefinedTypes,
    scopes: &Scopes,
    parameter: Binder,
    at: usize,
) -> Result<BodyTypes, AllocError>
    requires { at < count_of types.old }
    ensures parameter { IfOk result (λ made. refined_at (scopes_view scopes.now) types.new made.parameter
        ≡ argument_of (refined_at (scopes_view scopes.now) types.old at)) }
    ensures result { IfOk result (λ made. refined_at (scopes_view scopes.now) types.new made.result
        ≡ body_type (scopes_view scopes.now) parameter.0 (refined_at (scopes_view scopes.now) types.old at)) }
    ensures parameter_there { IfOk result (λ made. made.parameter < count_of types.new) }
    ensures result_there { IfOk result (λ made. made.result < count_of types.new) }
    ensures grows { Grows types.old types.new }
{
    let function = function_type(alloc, types, scopes, at)?;
    let kind = types.kind(function.argument);
    let result = types.renamed(
        alloc,
        function.binder,
        Some(parameter),
        kind,
        function.result,
    )?;
    Ok(BodyTypes {
        parameter: function.argument,
        result,
    })
}
