// Values of constructors, and what has no values.
ghost use Rattle.std.specs.Prelude.{◌≡◌, ◌<◌, All, IfOk};
ghost use Rattle.lq_refined_rules.specs.Checks.Operation.{built_arguments, built_type, empty_type, empty_types, field_types};
ghost use Rattle.lq_refined_templates.specs.Programs.PureView.{pures_view};
ghost use Rattle.lq_refined_subtyping.specs.Table.Forms.{each};
ghost use Rattle.lq_refined_subtyping.specs.Table.Whole.{count_of, refined_at, types_of, Grows};
ghost use Rattle.lq_refined_substitution.specs.Substitution.Views.{scopes_view};
ghost use Rattle.lq_generate_operations.specs.Basis.Basis.{scopes_of, types_in, IsThere};
ghost use Rattle.lq_generate_operations.specs.Basis.Knowing.{AreBelow};
ghost use Rattle.lq_generate_operations.specs.Operations.Over.{Over};

use crate::basis::{Basis, Names, operands_for, template};
use crate::operations::fields::{equations_by, fields_by};
use crate::operations::shapes::{DataType, data_type};
use lq_base_names::Name;
use lq_logic_predicates::Pred;
use lq_refined_substitution::substitution::{Part, Parts, Scopes};
use lq_refined_subtyping::table::{Form, Kind, RefinedTypes};
use lq_refined_templates::programs::Pure;
use std::alloc::{AllocError, Global};

/// The number of a type that has no value, where predicates speak of its values.
pub fn empty_type(
    alloc: Global,
    types: &mut RefinedTypes,
    scopes: &Scopes,
    at: usize,
) -> Result<usize, AllocError>
    requires { at < count_of types.old }
    ensures refined { IfOk result (λ r. refined_at (scopes_view scopes.now) types.new r
        ≡ empty_type (refined_at (scopes_view scopes.now) types.old at)) }
    ensures there { IfOk result (λ r. r < count_of types.new) }
    ensures grows { Grows types.old types.new }
{
    match types.kind(at) {
        Kind::Number | Kind::TruthValue | Kind::Object => {
            let none = Parts::single(alloc, Part::Known(Pred::False))?;
            types.with_top(alloc, scopes, none, at)
        }
        Kind::Other => Ok(at),
    }
}

// The same of types in a row.
fn empty_types(
    alloc: Global,
    types: &mut RefinedTypes,
    scopes: &Scopes,
    row: &[usize],
) -> Result<Vec<usize>, AllocError>
    requires { All (λ p. p < count_of types.old) row.now }
    ensures refined { IfOk result (λ made. each (types_of (scopes_view scopes.now) types.new) made.items
        ≡ empty_types (each (types_of (scopes_view scopes.now) types.old) row.now)) }
    ensures there { IfOk result (λ made. All (λ p. p < count_of types.new) made.items) }
    ensures grows { Grows types.old types.new }
{
    let mut made = Vec::new(alloc);
    for at in row {
        made.push(empty_type(alloc, types, scopes, *at)?)?;
    }
    Ok(made)
}

// The arguments of a constructor's value: without a field, of a value of the parameter's type there is none.
fn built_arguments(
    alloc: Global,
    types: &mut RefinedTypes,
    scopes: &Scopes,
    operands: &[Pure],
    arguments: &[usize],
) -> Result<Vec<usize>, AllocError>
    requires { All (λ p. p < count_of types.old) arguments.now }
    ensures refined { IfOk result (λ made. each (types_of (scopes_view scopes.now) types.new) made.items
        ≡ built_arguments (pures_view operands.now) (each (types_of (scopes_view scopes.now) types.old) arguments.now)) }
    ensures there { IfOk result (λ made. All (λ p. p < count_of types.new) made.items) }
    ensures grows { Grows types.old types.new }
{
    if operands.is_empty() {
        empty_types(alloc, types, scopes, arguments)
    } else {
        Ok(Vec::from_slice(alloc, arguments)?)
    }
}

/// The number of the type of a constructor's value: its equations with the operands for its fields.
pub fn built_type(
    alloc: Global,
    types: &mut RefinedTypes,
    basis: &Basis<'_>,
    names: &Names,
    point: usize,
    constructor: Name,
    operands: &[Pure],
) -> Result<usize, AllocError>
    requires there { IsThere (count_of types.old) basis.now }
    requires names { AreBelow (count_of types.old) names.now }
    ensures refined { IfOk result (λ r. Over basis.now names.now types.old (λ P Γ. refined_at (scopes_of basis.now) types.new r
        ≡ built_type P Γ point constructor.0 (pures_view operands.now))) }
    ensures there { IfOk result (λ r. r < count_of types.new) }
    ensures grows { Grows types.old types.new }
{
    let by = operands_for(alloc, types, basis, names, operands)?;
    let equations = equations_by(alloc, basis, constructor, &by)?;
    let at = template(alloc, types, basis, point)?;
    let DataType {
        name,
        arguments,
        matrix,
    } = data_type(alloc, types, basis.scopes, at)?;
    let inside = built_arguments(alloc, types, basis.scopes, operands, &arguments)?;
    let made = types.push(Form::Data(name, inside, matrix), equations)?;
    Ok(made)
}

/// The numbers of the types that a constructor's operands are to have: its fields, unfolded from the template with the operands for them.
pub fn field_types(
    alloc: Global,
    types: &mut RefinedTypes,
    basis: &Basis<'_>,
    names: &Names,
    point: usize,
    constructor: Name,
    operands: &[Pure],
) -> Result<Vec<usize>, AllocError>
    requires there { IsThere (count_of types.old) basis.now }
    requires names { AreBelow (count_of types.old) names.now }
    ensures refined { IfOk result (λ made. Over basis.now names.now types.old (λ P Γ. each (types_in basis.now types.new) made.items
        ≡ field_types P Γ point constructor.0 (pures_view operands.now))) }
    ensures there { IfOk result (λ made. All (λ p. p < count_of types.new) made.items) }
    ensures grows { Grows types.old types.new }
{
    let by = operands_for(alloc, types, basis, names, operands)?;
    let at = template(alloc, types, basis, point)?;
    let of = data_type(alloc, types, basis.scopes, at)?;
    let made = fields_by(alloc, types, basis, &of, constructor, &by)?;
    Ok(made)
}
