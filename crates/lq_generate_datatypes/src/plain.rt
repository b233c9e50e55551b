// Types without refinements in a table of refined types.
ghost use Rattle.std.specs.Prelude.{◌≡◌, ◌<◌, [], All, IfOk};
ghost use Rattle.lq_refined_types.specs.Parts.Part.{Scopes as ScopeLists};
ghost use Rattle.lq_refined_subtyping.specs.Table.Forms.{each, form_rows, form_type};
ghost use Rattle.lq_refined_subtyping.specs.Table.Unfolding.{all_plain, plain};
ghost use Rattle.lq_refined_subtyping.specs.Table.Whole.{count_of, refined_at, types_of, Grows};
ghost use Rattle.lq_text_tree.specs.SimpleTypeView.{simple_type_view, simple_types_view};

use lq_refined_substitution::substitution::Parts;
use lq_refined_subtyping::table::{Form, Matrix, RefinedTypes};
use lq_text_tree::{SimpleType, SimpleTypes};
use std::alloc::{AllocError, Global};

// The number of a type without refinements.
#[cycle(plain)]
fn plain(alloc: Global, types: &mut RefinedTypes, written: &SimpleType) -> Result<usize, AllocError>
    ensures refined { IfOk result (λ r. (scopes : ScopeLists) → refined_at scopes types.new r
        ≡ plain (simple_type_view written.now)) }
    ensures there { IfOk result (λ r. r < count_of types.new) }
    ensures grows { Grows types.old types.new }
{
    let form = plain_form(alloc, types, written)?;
    let row = types.push(form, Parts::new(alloc))?;
    Ok(row)
}

// The form of such a type.
#[cycle(plain)]
fn plain_form(
    alloc: Global,
    types: &mut RefinedTypes,
    written: &SimpleType,
) -> Result<Form, AllocError>
    ensures refined { IfOk result (λ f. (scopes : ScopeLists) → form_type (types_of scopes types.new) f []
        ≡ plain (simple_type_view written.now)) }
    ensures there { IfOk result (λ f. All (λ p. p < count_of types.new) (form_rows f)) }
    ensures grows { Grows types.old types.new }
{
    match written {
        SimpleType::Int => Ok(Form::Int),
        SimpleType::Bool => Ok(Form::Bool),
        SimpleType::Unit => Ok(Form::Unit),
        SimpleType::Var(variable) => Ok(Form::Variable(*variable)),
        SimpleType::Arrow(argument, value) => {
            let first = plain(alloc, types, argument)?;
            let second = plain(alloc, types, value)?;
            Ok(Form::Function(None, first, second))
        }
        SimpleType::Tuple(parts) => {
            let row = all_plain(alloc, types, parts)?;
            Ok(Form::Tuple(row))
        }
        SimpleType::Array(element) => {
            let element = plain(alloc, types, element)?;
            Ok(Form::Array(element))
        }
        SimpleType::Named(name, parts) => {
            let row = all_plain(alloc, types, parts)?;
            Ok(Form::Data(*name, row, Matrix::new(alloc)))
        }
        SimpleType::Map(element) => {
            let element = plain(alloc, types, element)?;
            Ok(Form::Map(element))
        }
    }
}

/// The numbers of types without refinements, in their order.
#[cycle(plain)]
pub(crate) fn all_plain(
    alloc: Global,
    types: &mut RefinedTypes,
    written: &SimpleTypes,
) -> Result<Vec<usize>, AllocError>
    ensures refined { IfOk result (λ rows. (scopes : ScopeLists) → each (types_of scopes types.new) rows.items
        ≡ all_plain (simple_types_view written.now)) }
    ensures there { IfOk result (λ rows. All (λ p. p < count_of types.new) rows.items) }
    ensures grows { Grows types.old types.new }
{
    let mut rows = Vec::new(alloc);
    for at in 0..written.len() {
        if let Some(part) = written.get(at) {
            rows.push(plain(alloc, types, part)?)?;
        }
    }
    Ok(rows)
}
