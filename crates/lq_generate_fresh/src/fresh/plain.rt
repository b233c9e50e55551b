// Types without parts. The walk goes as deep as a type is; what isn't inlined keeps its frames small.
ghost use Rattle.std.specs.Prelude.{◌<◌, All, IfOk, length};
ghost use Rattle.lq_generate_fresh.specs.Fresh.Walking.{AreTemplates, IsForm, IsTemplate};
ghost use Rattle.lq_generate_fresh.specs.Fresh.Wanted.{all_plain_wanted, plain_wanted};
ghost use Rattle.lq_types_table.specs.Heads.{each};
ghost use Rattle.lq_types_table.specs.Nodes.{at as type_at};
ghost use Rattle.lq_types_table.specs.Whole.{types_of};

use crate::fresh::simple::Given;
use crate::fresh::templates::Templates;
use lq_refined_substitution::substitution::Parts;
use lq_refined_subtyping::table::{Form, Matrix};
use lq_types_table::TypeNode;
use std::alloc::{AllocError, Global};

// A type without parts.
#[cycle(plains)]
fn plain(
    alloc: Global,
    templates: &mut Templates,
    given: &Given<'_>,
    at: u32,
) -> Result<usize, AllocError>
    requires { at < length (types_of given.now.types.now) }
    ensures { IfOk result (λ r. IsTemplate given.now.datatypes.now templates.old templates.new r
        (plain_wanted (type_at (types_of given.now.types.now) at))) }
{
    let form = plain_form(alloc, templates, given, at)?;
    let row = templates.push(form, Parts::new(alloc))?;
    Ok(row)
}

// The form of such a type.
#[cycle(plains)]
#[inline(never)]
fn plain_form(
    alloc: Global,
    templates: &mut Templates,
    given: &Given<'_>,
    at: u32,
) -> Result<Form, AllocError>
    requires { at < length (types_of given.now.types.now) }
    ensures { IfOk result (λ f. IsForm given.now.datatypes.now templates.old templates.new f
        (plain_wanted (type_at (types_of given.now.types.now) at))) }
{
    match given.types.node(at) {
        TypeNode::Int => Ok(Form::Int),
        TypeNode::Bool => Ok(Form::Bool),
        TypeNode::Unit => Ok(Form::Unit),
        TypeNode::Var(variable) => Ok(Form::Variable(variable as u64)),
        TypeNode::Arrow(argument, value) => {
            let first = plain(alloc, templates, given, argument)?;
            let second = plain(alloc, templates, given, value)?;
            Ok(Form::Function(None, first, second))
        }
        TypeNode::Tuple(parts) => {
            let components = each_plain(alloc, templates, given, parts)?;
            Ok(Form::Tuple(components))
        }
        TypeNode::Array(element) => {
            let element = plain(alloc, templates, given, element)?;
            Ok(Form::Array(element))
        }
        TypeNode::Named(name, parts) => {
            let arguments = each_plain(alloc, templates, given, parts)?;
            Ok(Form::Data(name, arguments, Matrix::new(alloc)))
        }
        TypeNode::Map(element) => {
            let element = plain(alloc, templates, given, element)?;
            Ok(Form::Map(element))
        }
    }
}

// Types without parts, in their order.
#[cycle(plains)]
#[inline(never)]
pub(crate) fn each_plain(
    alloc: Global,
    templates: &mut Templates,
    given: &Given<'_>,
    parts: &[u32],
) -> Result<Vec<usize>, AllocError>
    requires { All (λ p. p < length (types_of given.now.types.now)) parts.now }
    ensures { IfOk result (λ made. AreTemplates given.now.datatypes.now templates.old templates.new made.items
        (all_plain_wanted (each (type_at (types_of given.now.types.now)) parts.now))) }
{
    let mut made = Vec::new(alloc);
    for at in 0..parts.len() {
        let row = plain(alloc, templates, given, parts[at])?;
        made.push(row)?;
    }
    Ok(made)
}
