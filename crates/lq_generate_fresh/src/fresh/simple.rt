// What is read of the simple types of a table, and of the names of a function's arguments.
ghost use Rattle.std.specs.Prelude.{◌≡◌, ◌<◌, All, IfOk, length, map};
ghost use Rattle.lq_refined_subtyping.specs.Table.Forms.{binder_view};
ghost use Rattle.lq_text_qualifiers.specs.Faults.Shapes.{shape_of};
ghost use Rattle.lq_refined_templates.specs.Templates.Fresh.{first_name, later_names};
ghost use Rattle.lq_types_table.specs.Heads.{each};
ghost use Rattle.lq_types_table.specs.Nodes.{at as type_at};
ghost use Rattle.lq_types_table.specs.Whole.{types_of};
ghost use Rattle.lq_generate_fresh.specs.Fresh.Fields.{shapes_of};
ghost use Rattle.lq_generate_fresh.specs.Fresh.Views.{shape_if};

use crate::fresh::fields::Datatypes;
use lq_base_names::Binder;
use lq_text_qualifiers::sorting::Shape;
use lq_types_table::{TypeNode, TypeTable};
use std::alloc::{AllocError, Global};

/// The simple types, and the datatypes that they name.
#[derive(Drop)]
pub struct Given<'a> {
    pub types: &'a TypeTable,
    pub datatypes: &'a Datatypes,
}

// The shape of a type, where predicates speak of it.
pub(crate) fn shape_at(types: &TypeTable, at: u32) -> Option<Shape>
    requires { at < length (types_of types.now) }
    ensures { shape_if result ≡ shape_of (type_at (types_of types.now) at) }
{
    match types.node(at) {
        TypeNode::Int => Some(Shape::Int),
        TypeNode::Bool => Some(Shape::Bool),
        TypeNode::Array(_) => Some(Shape::Array),
        TypeNode::Named(name, _) => Some(Shape::Data(name)),
        TypeNode::Unit
        | TypeNode::Var(_)
        | TypeNode::Arrow(_, _)
        | TypeNode::Tuple(_)
        | TypeNode::Map(_) => None,
    }
}

// The shapes of types, in their order.
#[inline(never)]
pub(crate) fn shapes_at(
    alloc: Global,
    types: &TypeTable,
    parts: &[u32],
) -> Result<Vec<Option<Shape>>, AllocError>
    requires { All (λ p. p < length (types_of types.now)) parts.now }
    ensures { IfOk result (λ made. map shape_if made.items ≡ shapes_of (each (type_at (types_of types.now)) parts.now)) }
{
    let mut made = Vec::new(alloc);
    for at in parts {
        made.push(shape_at(types, *at))?;
    }
    Ok(made)
}

// The name of a function's argument, where there are names of arguments left and this one has one.
pub(crate) fn first_name(names: &[Option<Binder>]) -> Option<Binder>
    ensures { binder_view result ≡ first_name (map binder_view names.now) }
{
    match names {
        [name, ..] => *name,
        [] => None,
    }
}

// The names of the arguments behind the first one.
pub(crate) fn later_names(names: &[Option<Binder>]) -> &[Option<Binder>]
    ensures { map binder_view result.now ≡ later_names (map binder_view names.now) }
{
    match names {
        [_, later @ ..] => later,
        [] => &[],
    }
}
