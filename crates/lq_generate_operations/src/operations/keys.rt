// The elements of maps at keys.
ghost use Rattle.std.specs.Prelude.{◌≡◌, ◌<◌, All, IfOk};
ghost use Rattle.lq_refined_rules.specs.Checks.Operation.{all_keyed, element_at, keyed};
ghost use Rattle.lq_refined_types.specs.Parts.Part.{Parts as PartList, parts_by};
ghost use Rattle.lq_refined_templates.specs.Programs.PureView.{pure_view};
ghost use Rattle.lq_refined_subtyping.specs.Table.Forms.{each, form_rows, form_type};
ghost use Rattle.lq_refined_subtyping.specs.Table.Whole.{count_of, refined_at, types_of, Grows};
ghost use Rattle.lq_refined_substitution.specs.Substitution.Views.{scopes_view, subst_view};

use crate::basis::term;
use crate::operations::shapes::element_of;
use lq_logic_predicates::Symbol;
use lq_refined_substitution::substitution::{Atom, Scopes, Subst};
use lq_refined_subtyping::table::{Form, RefinedTypes};
use lq_refined_templates::programs::Pure;
use std::alloc::{AllocError, Global};

// The number of a type with something put for `#0`, but in the elements of maps inside it.
#[cycle(keyed)]
fn keyed(
    alloc: Global,
    types: &mut RefinedTypes,
    scopes: &Scopes,
    by: &Subst,
    at: usize,
) -> Result<usize, AllocError>
    requires { at < count_of types.old }
    ensures refined { IfOk result (λ r. refined_at (scopes_view scopes.now) types.new r
        ≡ keyed (scopes_view scopes.now) (subst_view by.now) (refined_at (scopes_view scopes.now) types.old at)) }
    ensures there { IfOk result (λ r. r < count_of types.new) }
    ensures grows { Grows types.old types.new }
{
    let exposed = types.expose(alloc, scopes, at)?;
    let node = types.node(exposed);
    let top = node.top.by(alloc, scopes, by)?;
    let form = node.form.copy(alloc)?;
    let inside = keyed_form(alloc, types, scopes, by, form)?;
    types.push(inside, top)
}

// A form with it put inside.
#[cycle(keyed)]
fn keyed_form(
    alloc: Global,
    types: &mut RefinedTypes,
    scopes: &Scopes,
    by: &Subst,
    form: Form,
) -> Result<Form, AllocError>
    requires { All (λ p. p < count_of types.old) (form_rows form) }
    ensures refined { IfOk result (λ made. (p : PartList) → form_type (types_of (scopes_view scopes.now) types.new) made
        (parts_by (scopes_view scopes.now) (subst_view by.now) p) ≡ keyed (scopes_view scopes.now) (subst_view by.now)
        (form_type (types_of (scopes_view scopes.now) types.old) form p)) }
    ensures there { IfOk result (λ made. All (λ p. p < count_of types.new) (form_rows made)) }
    ensures grows { Grows types.old types.new }
{
    match form {
        Form::Int | Form::Bool | Form::Unit | Form::Map(_) | Form::Variable(_) => Ok(form),
        Form::Function(binder, argument, result) => {
            let argument = keyed(alloc, types, scopes, by, argument)?;
            let result = keyed(alloc, types, scopes, by, result)?;
            Ok(Form::Function(binder, argument, result))
        }
        Form::Tuple(row) => {
            let row = keyed_row(alloc, types, scopes, by, &row)?;
            Ok(Form::Tuple(row))
        }
        Form::Array(element) => {
            let element = keyed(alloc, types, scopes, by, element)?;
            Ok(Form::Array(element))
        }
        Form::Data(name, row, matrix) => {
            let row = keyed_row(alloc, types, scopes, by, &row)?;
            Ok(Form::Data(name, row, matrix))
        }
    }
}

// The numbers of types in a row with it put.
#[cycle(keyed)]
fn keyed_row(
    alloc: Global,
    types: &mut RefinedTypes,
    scopes: &Scopes,
    by: &Subst,
    row: &[usize],
) -> Result<Vec<usize>, AllocError>
    requires { All (λ p. p < count_of types.old) row.now }
    ensures refined { IfOk result (λ made. each (types_of (scopes_view scopes.now) types.new) made.items
        ≡ all_keyed (scopes_view scopes.now) (subst_view by.now) (each (types_of (scopes_view scopes.now) types.old) row.now)) }
    ensures there { IfOk result (λ made. All (λ p. p < count_of types.new) made.items) }
    ensures grows { Grows types.old types.new }
{
    let mut made = Vec::new(alloc);
    for at in row {
        made.push(keyed(alloc, types, scopes, by, *at)?)?;
    }
    Ok(made)
}

/// The number of the type of a map's element at a key.
pub fn element_at(
    alloc: Global,
    types: &mut RefinedTypes,
    scopes: &Scopes,
    key: &Pure,
    at: usize,
) -> Result<usize, AllocError>
    requires { at < count_of types.old }
    ensures refined { IfOk result (λ r. refined_at (scopes_view scopes.now) types.new r
        ≡ element_at (scopes_view scopes.now) (pure_view key.now) (refined_at (scopes_view scopes.now) types.old at)) }
    ensures there { IfOk result (λ r. r < count_of types.new) }
    ensures grows { Grows types.old types.new }
{
    let element = element_of(alloc, types, scopes, at)?;
    let key = Atom::Term(term(alloc, key)?);
    let by = Subst::single(alloc, Symbol::Position(0), key)?;
    keyed(alloc, types, scopes, &by, element)
}
