// Refined types under an assignment.
ghost use Rattle.std.specs.Prelude.{◌≡◌, ◌<◌, All, IfOk};
ghost use Rattle.lq_refined_types.specs.Parts.Part.{Parts as PartList};
ghost use Rattle.lq_refined_types.specs.Types.Operations.{all_under, known_parts, under};
ghost use Rattle.lq_refined_subtyping.specs.Table.Forms.{each, form_rows, form_type};
ghost use Rattle.lq_refined_subtyping.specs.Table.Whole.{count_of, refined_at, types_of, Grows};
ghost use Rattle.lq_refined_substitution.specs.Substitution.Views.{scopes_view};
ghost use Rattle.lq_top_answers.specs.Assignment.Views.{assignment_view};

use crate::assignment::assignment::Assignment;
use crate::assignment::known::{known_cells, known_parts};
use lq_refined_substitution::substitution::Scopes;
use lq_refined_subtyping::table::{Form, RefinedTypes};
use std::alloc::{AllocError, Global};

/// The scopes of the unknowns, and what each stands for.
pub struct Given<'a> {
    pub scopes: &'a Scopes,
    pub assignment: &'a Assignment,
}

/// The number of the type in which each unknown is replaced by its instances.
#[cycle(under)]
pub fn types_under(
    alloc: Global,
    types: &mut RefinedTypes,
    given: &Given<'_>,
    at: usize,
) -> Result<usize, AllocError>
    requires { at < count_of types.old }
    ensures refined { IfOk result (λ n. refined_at (scopes_view given.now.scopes.now) types.new n
        ≡ under (assignment_view given.now.assignment.now) (refined_at (scopes_view given.now.scopes.now) types.old at)) }
    ensures there { IfOk result (λ n. n < count_of types.new) }
    ensures grows { Grows types.old types.new }
{
    let exposed = types.expose(alloc, given.scopes, at)?;
    let node = types.node(exposed);
    let top = known_parts(alloc, given.assignment, &node.top)?;
    let form = node.form.copy(alloc)?;
    let form = form_under(alloc, types, given, form)?;
    types.push(form, top)
}

// A form over the types inside under the assignment, so that its type is that under it.
#[cycle(under)]
fn form_under(
    alloc: Global,
    types: &mut RefinedTypes,
    given: &Given<'_>,
    form: Form,
) -> Result<Form, AllocError>
    requires { All (λ p. p < count_of types.old) (form_rows form) }
    ensures refined { IfOk result (λ made. (p : PartList) → form_type (types_of (scopes_view given.now.scopes.now) types.new) made
        (known_parts (assignment_view given.now.assignment.now) p)
        ≡ under (assignment_view given.now.assignment.now)
        (form_type (types_of (scopes_view given.now.scopes.now) types.old) form p)) }
    ensures there { IfOk result (λ made. All (λ p. p < count_of types.new) (form_rows made)) }
    ensures grows { Grows types.old types.new }
{
    match form {
        Form::Int => Ok(Form::Int),
        Form::Bool => Ok(Form::Bool),
        Form::Unit => Ok(Form::Unit),
        Form::Function(x, a, b) => {
            let argument = types_under(alloc, types, given, a)?;
            let result = types_under(alloc, types, given, b)?;
            Ok(Form::Function(x, argument, result))
        }
        Form::Tuple(parts) => Ok(Form::Tuple(all_under(alloc, types, given, &parts)?)),
        Form::Array(element) => Ok(Form::Array(types_under(alloc, types, given, element)?)),
        Form::Data(name, arguments, matrix) => {
            let arguments = all_under(alloc, types, given, &arguments)?;
            let matrix = known_cells(alloc, given.assignment, &matrix)?;
            Ok(Form::Data(name, arguments, matrix))
        }
        Form::Map(element) => Ok(Form::Map(types_under(alloc, types, given, element)?)),
        Form::Variable(variable) => Ok(Form::Variable(variable)),
    }
}

// Types under the assignment.
#[cycle(under)]
fn all_under(
    alloc: Global,
    types: &mut RefinedTypes,
    given: &Given<'_>,
    parts: &[usize],
) -> Result<Vec<usize>, AllocError>
    requires { All (λ p. p < count_of types.old) parts.now }
    ensures refined { IfOk result (λ made. each (types_of (scopes_view given.now.scopes.now) types.new) made.items
        ≡ all_under (assignment_view given.now.assignment.now)
        (each (types_of (scopes_view given.now.scopes.now) types.old) parts.now)) }
    ensures there { IfOk result (λ made. All (λ p. p < count_of types.new) made.items) }
    ensures grows { Grows types.old types.new }
{
    let mut made = Vec::new(alloc);
    for at in parts {
        made.push(types_under(alloc, types, given, *at)?)?;
    }
    Ok(made)
}
