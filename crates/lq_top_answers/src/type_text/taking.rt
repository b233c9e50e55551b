// Types of a table under an assignment, as trees.
ghost use Rattle.std.specs.Prelude.{◌≡◌, ◌<◌, ◌++◌, All, IfOk, OnOk, map};
ghost use Rattle.lq_refined_types.specs.Parts.Assignment.{part_under, parts_under};
ghost use Rattle.lq_refined_types.specs.Parts.Part.{Parts as PartList};
ghost use Rattle.lq_refined_types.specs.Parts.Substitution.{formula_by};
ghost use Rattle.lq_logic_predicates.specs.PredView.{formula_of, pred_items};
ghost use Rattle.lq_refined_types.specs.Types.Operations.{all_under, cells_under, known_parts, under};
ghost use Rattle.lq_refined_subtyping.specs.Table.Forms.{each, form_rows, form_type, matrix_view};
ghost use Rattle.lq_refined_subtyping.specs.Table.Whole.{count_of, refined_at, types_of, Grows};
ghost use Rattle.lq_refined_substitution.specs.Substitution.Views.{part_view, parts_view, scopes_view, subst_view};
ghost use Rattle.lq_top_answers.specs.Assignment.Views.{assignment_view};
ghost use Rattle.lq_top_answers.specs.TypeText.ShownView.{entries_view, preds_view, row_view, shown_view};

use crate::assignment::{Assignment, Given};
use crate::type_text::tree::{Entry, Shown};
use lq_logic_predicates::{Pred, Preds};
use lq_refined_substitution::substitution::{Part, Parts, Subst, substitute};
use lq_refined_subtyping::table::{Form, Matrix, RefinedTypes};
use std::alloc::{AllocError, Global};

// Adds predicates with something put for their symbols.
fn add_instances(
    alloc: Global,
    into: &mut Preds,
    preds: &[Pred],
    by: &Subst,
) -> Result<(), AllocError>
    ensures { OnOk result (map formula_of (pred_items into.new) ≡ map formula_of (pred_items into.old)
        ++ map (formula_by (subst_view by.now)) (map formula_of preds.now)) }
{
    for pred in preds {
        into.push(substitute(alloc, pred, by)?)?;
    }
    Ok(())
}

// Adds what a part stands for.
fn add_part(
    alloc: Global,
    into: &mut Preds,
    assignment: &Assignment,
    part: &Part,
) -> Result<(), AllocError>
    ensures { OnOk result (map formula_of (pred_items into.new) ≡ map formula_of (pred_items into.old)
        ++ part_under (assignment_view assignment.now) (part_view part.now)) }
{
    match part {
        Part::Known(pred) => into.push(pred.copy(alloc)?),
        Part::Unknown(unknown, by) => {
            add_instances(alloc, into, assignment.instances(*unknown), by)
        }
    }
}

// The predicates that parts stand for.
fn preds_under(alloc: Global, assignment: &Assignment, parts: &Parts) -> Result<Preds, AllocError>
    ensures { IfOk result (λ made. map formula_of (pred_items made)
        ≡ parts_under (assignment_view assignment.now) (parts_view parts.now)) }
{
    let mut made = Preds::new(alloc)?;
    for part in parts.as_slice() {
        add_part(alloc, &mut made, assignment, part)?;
    }
    Ok(made)
}

// The entries of a matrix with the predicates that their parts stand for.
fn entries_under(
    alloc: Global,
    assignment: &Assignment,
    matrix: &Matrix,
) -> Result<Vec<Entry>, AllocError>
    ensures { IfOk result (λ made. entries_view made.items
        ≡ cells_under (assignment_view assignment.now) (matrix_view matrix.now)) }
{
    let mut made = Vec::new(alloc);
    for cell in matrix.as_slice() {
        made.push(Entry {
            constructor: cell.constructor,
            field: cell.field,
            parameter: cell.parameter,
            preds: preds_under(alloc, assignment, &cell.parts)?,
        })?;
    }
    Ok(made)
}

/// The type of this number, as a tree in which each unknown is replaced by its instances. The table may grow; what is there stays.
#[cycle(shown)]
pub fn shown(
    alloc: Global,
    types: &mut RefinedTypes,
    given: &Given<'_>,
    at: usize,
) -> Result<Shown, AllocError>
    requires { at < count_of types.old }
    ensures shown { IfOk result (λ made. shown_view made
        ≡ under (assignment_view given.now.assignment.now) (refined_at (scopes_view given.now.scopes.now) types.old at)) }
    ensures grows { Grows types.old types.new }
{
    let exposed = types.expose(alloc, given.scopes, at)?;
    let node = types.node(exposed);
    let top = preds_under(alloc, given.assignment, &node.top)?;
    let form = node.form.copy(alloc)?;
    form_shown(alloc, types, given, form, top)
}

// The same in a box.
#[cycle(shown)]
fn boxed(
    alloc: Global,
    types: &mut RefinedTypes,
    given: &Given<'_>,
    at: usize,
) -> Result<Box<Shown>, AllocError>
    requires { at < count_of types.old }
    ensures shown { IfOk result (λ made. shown_view made.value
        ≡ under (assignment_view given.now.assignment.now) (refined_at (scopes_view given.now.scopes.now) types.old at)) }
    ensures grows { Grows types.old types.new }
{
    let made = shown(alloc, types, given, at)?;
    Ok(Box::new(alloc, made)?)
}

// The type of a form over types of the table, with these predicates at its top.
#[cycle(shown)]
fn form_shown(
    alloc: Global,
    types: &mut RefinedTypes,
    given: &Given<'_>,
    form: Form,
    top: Preds,
) -> Result<Shown, AllocError>
    requires { All (λ p. p < count_of types.old) (form_rows form) }
    ensures shown { IfOk result (λ made. (p : PartList)
        → preds_view top ≡ known_parts (assignment_view given.now.assignment.now) p
        → shown_view made ≡ under (assignment_view given.now.assignment.now)
        (form_type (types_of (scopes_view given.now.scopes.now) types.old) form p)) }
    ensures grows { Grows types.old types.new }
{
    match form {
        Form::Int => Ok(Shown::Int(top)),
        Form::Bool => Ok(Shown::Bool(top)),
        Form::Unit => Ok(Shown::Unit),
        Form::Function(x, a, b) => {
            let argument = boxed(alloc, types, given, a)?;
            let result = boxed(alloc, types, given, b)?;
            Ok(Shown::Function(x, argument, result))
        }
        Form::Tuple(parts) => Ok(Shown::Tuple(all_shown(alloc, types, given, &parts)?)),
        Form::Array(element) => {
            let element = boxed(alloc, types, given, element)?;
            Ok(Shown::Array(element, top))
        }
        Form::Data(name, arguments, matrix) => {
            let arguments = all_shown(alloc, types, given, &arguments)?;
            let entries = entries_under(alloc, given.assignment, &matrix)?;
            Ok(Shown::Data(name, arguments, entries, top))
        }
        Form::Map(element) => {
            let element = boxed(alloc, types, given, element)?;
            Ok(Shown::Map(element, top))
        }
        Form::Variable(variable) => Ok(Shown::Variable(variable)),
    }
}

// Types of the table.
#[cycle(shown)]
fn all_shown(
    alloc: Global,
    types: &mut RefinedTypes,
    given: &Given<'_>,
    parts: &[usize],
) -> Result<Vec<Shown>, AllocError>
    requires { All (λ p. p < count_of types.old) parts.now }
    ensures shown { IfOk result (λ made. row_view made.items ≡ all_under (assignment_view given.now.assignment.now)
        (each (types_of (scopes_view given.now.scopes.now) types.old) parts.now)) }
    ensures grows { Grows types.old types.new }
{
    let mut made = Vec::new(alloc);
    for at in parts {
        made.push(shown(alloc, types, given, *at)?)?;
    }
    Ok(made)
}
