// Templates of values of which there are none: `false` stands at their tops.
ghost use Rattle.std.specs.Prelude.{◌≡◌, ◌<◌, [], All, IfOk, length};
ghost use Rattle.lq_generate_fresh.specs.Fresh.Views.{scope_at, scopes_of, unknowns_of};
ghost use Rattle.lq_generate_fresh.specs.Fresh.Walking.{form_wanted, AreTemplates, IsTemplate};
ghost use Rattle.lq_generate_fresh.specs.Fresh.Wanted.{all_emptied_wanted, constant_wanted, emptied_wanted, empty_parts};
ghost use Rattle.lq_refined_subtyping.specs.Table.Forms.{kind_view};
ghost use Rattle.lq_refined_substitution.specs.Substitution.Views.{parts_view};
ghost use Rattle.lq_text_tree.specs.MlType.{named};
ghost use Rattle.lq_types_table.specs.Heads.{each};
ghost use Rattle.lq_types_table.specs.Nodes.{at as type_at};
ghost use Rattle.lq_types_table.specs.Whole.{types_of};

use crate::fresh::simple::{Given, shapes_at};
use crate::fresh::templates::Templates;
use lq_base_names::Name;
use lq_logic_predicates::Pred;
use lq_refined_substitution::substitution::{Part, Parts};
use lq_refined_subtyping::table::{Form, Kind};
use lq_types_table::TypeNode;
use std::alloc::{AllocError, Global};

// `false`, where predicates speak of such values; else nothing.
fn nothing(alloc: Global, kind: Kind) -> Result<Parts, AllocError>
    ensures { IfOk result (λ made. parts_view made ≡ empty_parts (kind_view kind)) }
{
    match kind {
        Kind::Number | Kind::TruthValue | Kind::Object => {
            let parts = Parts::single(alloc, Part::Known(Pred::False))?;
            Ok(parts)
        }
        Kind::Other => Ok(Parts::new(alloc)),
    }
}

// The template of a type without an unknown at its top.
pub(crate) fn inside(
    alloc: Global,
    templates: &mut Templates,
    given: &Given<'_>,
    at: u32,
    scope: u64,
) -> Result<usize, AllocError>
    requires type_there { at < length (types_of given.now.types.now) }
    requires scope { scope < length (scopes_of templates.old) }
    ensures { IfOk result (λ r. IsTemplate given.now.datatypes.now templates.old templates.new r
        (form_wanted (length (unknowns_of templates.old)) (scope_at templates.old scope) []
        (type_at (types_of given.now.types.now) at))) }
{
    let form = templates.form(alloc, given, at, &[], scope)?;
    let row = templates.push(form, Parts::new(alloc))?;
    Ok(row)
}

// The template of a type of which there is no value.
pub(crate) fn emptied(
    alloc: Global,
    templates: &mut Templates,
    given: &Given<'_>,
    at: u32,
    scope: u64,
) -> Result<usize, AllocError>
    requires type_there { at < length (types_of given.now.types.now) }
    requires scope { scope < length (scopes_of templates.old) }
    ensures { IfOk result (λ r. IsTemplate given.now.datatypes.now templates.old templates.new r
        (emptied_wanted (length (unknowns_of templates.old)) (scope_at templates.old scope)
        (type_at (types_of given.now.types.now) at))) }
{
    let form = templates.form(alloc, given, at, &[], scope)?;
    let top = nothing(alloc, form.kind())?;
    let row = templates.push(form, top)?;
    Ok(row)
}

// The same of types, each alone.
fn each_emptied(
    alloc: Global,
    templates: &mut Templates,
    given: &Given<'_>,
    parts: &[u32],
    scope: u64,
) -> Result<Vec<usize>, AllocError>
    requires parts { All (λ p. p < length (types_of given.now.types.now)) parts.now }
    requires scope { scope < length (scopes_of templates.old) }
    ensures { IfOk result (λ made. AreTemplates given.now.datatypes.now templates.old templates.new made.items
        (all_emptied_wanted (length (unknowns_of templates.old)) (scope_at templates.old scope)
        (each (type_at (types_of given.now.types.now)) parts.now))) }
{
    let mut made = Vec::new(alloc);
    for at in 0..parts.len() {
        let row = emptied(alloc, templates, given, parts[at], scope)?;
        made.push(row)?;
    }
    Ok(made)
}

// The template of a constructor without a field, whose datatype has these arguments.
fn built(
    alloc: Global,
    templates: &mut Templates,
    given: &Given<'_>,
    name: Name,
    parts: &[u32],
    scope: u64,
) -> Result<usize, AllocError>
    requires parts { All (λ p. p < length (types_of given.now.types.now)) parts.now }
    requires scope { scope < length (scopes_of templates.old) }
    ensures { IfOk result (λ r. IsTemplate given.now.datatypes.now templates.old templates.new r
        (constant_wanted (length (unknowns_of templates.old)) (scope_at templates.old scope)
        (named name.0 (each (type_at (types_of given.now.types.now)) parts.now)))) }
{
    let arguments = each_emptied(alloc, templates, given, parts, scope)?;
    let shapes = shapes_at(alloc, given.types, parts)?;
    let constructors = given.datatypes.of(name);
    let matrix = templates.matrix_of(alloc, name, constructors, shapes.as_slice())?;
    let row = templates.push(Form::Data(name, arguments, matrix), Parts::new(alloc))?;
    Ok(row)
}

// The template of a constructor without a field.
pub(crate) fn constant(
    alloc: Global,
    templates: &mut Templates,
    given: &Given<'_>,
    at: u32,
    scope: u64,
) -> Result<usize, AllocError>
    requires type_there { at < length (types_of given.now.types.now) }
    requires scope { scope < length (scopes_of templates.old) }
    ensures { IfOk result (λ r. IsTemplate given.now.datatypes.now templates.old templates.new r
        (constant_wanted (length (unknowns_of templates.old)) (scope_at templates.old scope)
        (type_at (types_of given.now.types.now) at))) }
{
    match given.types.node(at) {
        TypeNode::Named(name, parts) => {
            let row = built(alloc, templates, given, name, parts, scope)?;
            Ok(row)
        }
        TypeNode::Int
        | TypeNode::Bool
        | TypeNode::Unit
        | TypeNode::Var(_)
        | TypeNode::Arrow(_, _)
        | TypeNode::Tuple(_)
        | TypeNode::Array(_)
        | TypeNode::Map(_) => {
            let row = inside(alloc, templates, given, at, scope)?;
            Ok(row)
        }
    }
}
