// Which fields of a constructor are the datatype again.
ghost use Rattle.std.specs.Prelude.{◌≡◌, ◌<◌, All, IfOk};
ghost use Rattle.lq_refined_subtyping.specs.Table.Forms.{each};
ghost use Rattle.lq_refined_subtyping.specs.Table.Unfolding.{all_plain, AreFields};
ghost use Rattle.lq_refined_subtyping.specs.Table.Whole.{count_of, refined_at, types_of, Grows};
ghost use Rattle.lq_refined_substitution.specs.Substitution.Views.{scopes_view};
ghost use Rattle.lq_text_tree.specs.MlType.{MlTypes};
ghost use Rattle.lq_refined_subtyping.specs.Split.Recursive.{again, are_variables, is_variable};

use crate::table::{Field, Form, RefinedTypes};
use lq_base_names::Name;
use lq_refined_substitution::substitution::Scopes;
use std::alloc::{AllocError, Global};

// Whether a type is this variable.
fn is_variable(
    alloc: Global,
    types: &mut RefinedTypes,
    scopes: &Scopes,
    variable: u64,
    at: usize,
) -> Result<bool, AllocError>
    requires { at < count_of types.old }
    ensures is { IfOk result (λ is. is ≡ is_variable variable (refined_at (scopes_view scopes.now) types.old at)) }
    ensures grows { Grows types.old types.new }
{
    let exposed = types.expose(alloc, scopes, at)?;
    match &types.node(exposed).form {
        Form::Variable(other) => Ok(variable == *other),
        Form::Int
        | Form::Bool
        | Form::Unit
        | Form::Function(_, _, _)
        | Form::Tuple(_)
        | Form::Array(_)
        | Form::Data(_, _, _)
        | Form::Map(_) => Ok(false),
    }
}

// Whether the types are the variables from 0 on.
fn are_variables(
    alloc: Global,
    types: &mut RefinedTypes,
    scopes: &Scopes,
    row: &[usize],
) -> Result<bool, AllocError>
    requires { All (λ p. p < count_of types.old) row.now }
    ensures are { IfOk result (λ are. are ≡ are_variables 0 (each (types_of (scopes_view scopes.now) types.old) row.now)) }
    ensures grows { Grows types.old types.new }
{
    for at in 0..row.len() {
        if !is_variable(alloc, types, scopes, at as u64, row[at])? {
            return Ok(false);
        }
    }
    Ok(true)
}

// Whether a field is the datatype again, with its own parameters, of which there are so many.
fn is_again(
    alloc: Global,
    types: &mut RefinedTypes,
    scopes: &Scopes,
    datatype: Name,
    count: usize,
    at: usize,
) -> Result<bool, AllocError>
    requires { at < count_of types.old }
    ensures is { IfOk result (λ is. is ≡ again datatype.0 count (refined_at (scopes_view scopes.now) types.old at)) }
    ensures grows { Grows types.old types.new }
{
    let exposed = types.expose(alloc, scopes, at)?;
    let form = types.node(exposed).form.copy(alloc)?;
    match &form {
        Form::Data(name, arguments, _) => {
            if name.0 != datatype.0 {
                return Ok(false);
            }
            if arguments.len() != count {
                return Ok(false);
            }
            let are = are_variables(alloc, types, scopes, arguments)?;
            Ok(are)
        }
        Form::Int
        | Form::Bool
        | Form::Unit
        | Form::Function(_, _, _)
        | Form::Tuple(_)
        | Form::Array(_)
        | Form::Map(_)
        | Form::Variable(_) => Ok(false),
    }
}

/// The fields of a constructor whose types have these numbers, as the datatype with so many parameters unfolds them.
pub fn fields_in(
    alloc: Global,
    types: &mut RefinedTypes,
    scopes: &Scopes,
    datatype: Name,
    count: usize,
    rows: &[usize],
) -> Result<Vec<Field>, AllocError>
    requires { All (λ p. p < count_of types.old) rows.now }
    ensures fields { IfOk result (λ made. (fields : MlTypes)
        → each (types_of (scopes_view scopes.now) types.old) rows.now ≡ all_plain fields
        → AreFields (types_of (scopes_view scopes.now) types.new) datatype.0 count made.items fields) }
    ensures there { IfOk result (λ made. All (λ f. f.plain < count_of types.new) made.items) }
    ensures grows { Grows types.old types.new }
{
    let mut made = Vec::new(alloc);
    for row in rows {
        let is_again = is_again(alloc, types, scopes, datatype, count, *row)?;
        made.push(Field {
            plain: *row,
            is_again,
        })?;
    }
    Ok(made)
}
