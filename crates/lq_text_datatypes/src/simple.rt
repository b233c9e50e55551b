// Simple types of types as they are written.
ghost use Rattle.std.specs.Prelude.{◌≡◌, ◌∷◌, ◌++◌, length, IfOk, OnOk, map};
ghost use Rattle.lq_base_names.specs.declared.name.Name.{Name};
ghost use Rattle.lq_text_tree.specs.Items.{parameter_view};
ghost use Rattle.lq_text_tree.specs.Signatures.{place_of, written};
ghost use Rattle.lq_text_tree.specs.SimpleTypeView.{simple_type_view};
ghost use Rattle.lq_text_tree.specs.TypeView.{type_view, types_view};
ghost use Rattle.lq_text_datatypes.specs.Tasks.{enter, listed, made, parts_of};
ghost use Rattle.lq_text_datatypes.specs.Views.{stack_view, tasks_view};

use crate::stack::{named, pop_type, pop_types, row_of};
use lq_base_names::Name;
use lq_text_tree::{SimpleType, TypeExpr, TypeExprs, TypeNode, TypeParameter};
use std::alloc::{AllocError, Global};

/// A type that is still to be entered, or one whose parts are on the stack.
#[derive(Clone, Copy)]
pub(crate) enum Task<'a> {
    Enter(&'a TypeExpr),
    Make(&'a TypeExpr),
}

// The place of a name among the parameters.
fn place_of(parameters: &[TypeParameter], name: Name) -> usize
    ensures { result ≡ place_of (map parameter_view parameters.now) name.0 }
{
    for (at, parameter) in parameters.iter().enumerate() {
        if parameter.name == name {
            return at;
        }
    }
    parameters.len()
}

// The types of a row are to be entered, the first next.
fn enter_row<'a>(tasks: &mut Vec<Task<'a>>, row: &'a TypeExprs) -> Result<(), AllocError>
    ensures { OnOk result (tasks_view tasks.new.items
        ≡ map enter (listed (types_view row.now)) ++ tasks_view tasks.old.items) }
{
    let count = row.len();
    for at in 0..count {
        if let Some(part) = row.get(count - 1 - at) {
            tasks.push(Task::Enter(part))?;
        }
    }
    Ok(())
}

// The parts of a type are to be entered, the first next.
fn enter_parts<'a>(tasks: &mut Vec<Task<'a>>, source: &'a TypeExpr) -> Result<(), AllocError>
    ensures { OnOk result (tasks_view tasks.new.items
        ≡ map enter (parts_of (type_view source.now)) ++ tasks_view tasks.old.items) }
{
    match &source.node {
        TypeNode::Var(_) => {}
        TypeNode::Apply(row, _, _) => enter_row(tasks, row)?,
        TypeNode::Tuple(row) => enter_row(tasks, row)?,
        TypeNode::Arrow(taken, given) => {
            tasks.push(Task::Enter(given))?;
            tasks.push(Task::Enter(taken))?;
        }
    }
    Ok(())
}

// The number of the types of a row.
fn count(row: &TypeExprs) -> usize
    ensures { result ≡ length (listed (types_view row.now)) }
{
    row.len()
}

// A type of its parts, which are on the stack.
fn made(
    alloc: Global,
    parameters: &[TypeParameter],
    types: &mut Vec<SimpleType>,
    source: &TypeExpr,
) -> Result<SimpleType, AllocError>
    ensures { IfOk result (λ t. simple_type_view t ∷ stack_view types.new.items ≡ made
        (map parameter_view parameters.now) (type_view source.now) (stack_view types.old.items)) }
{
    match &source.node {
        TypeNode::Var(name) => Ok(SimpleType::Var(place_of(parameters, *name) as u64)),
        TypeNode::Apply(row, name, _) => {
            let popped = pop_types(alloc, types, count(row))?;
            let made = named(alloc, *name, popped)?;
            Ok(made)
        }
        TypeNode::Tuple(row) => {
            let popped = pop_types(alloc, types, count(row))?;
            let parts = row_of(alloc, popped)?;
            Ok(SimpleType::Tuple(parts))
        }
        TypeNode::Arrow(_, _) => {
            let given = Box::new(alloc, pop_type(types))?;
            let taken = Box::new(alloc, pop_type(types))?;
            Ok(SimpleType::Arrow(taken, given))
        }
    }
}

// The same, put on the stack.
fn make(
    alloc: Global,
    parameters: &[TypeParameter],
    types: &mut Vec<SimpleType>,
    source: &TypeExpr,
) -> Result<(), AllocError>
    ensures { OnOk result (stack_view types.new.items ≡ made (map parameter_view parameters.now)
        (type_view source.now) (stack_view types.old.items)) }
{
    let whole = made(alloc, parameters, types, source)?;
    types.push(whole)?;
    Ok(())
}

/// The simple type that a written type is, where these are the parameters: they are the variables 0, 1, .., in their order. In time
/// linear in the type but for looking up its variables; no stack of calls.
pub fn written(
    alloc: Global,
    parameters: &[TypeParameter],
    source: &TypeExpr,
) -> Result<SimpleType, AllocError>
    ensures { IfOk result (λ t. simple_type_view t ≡ written (map parameter_view parameters.now)
        (type_view source.now)) }
{
    let mut tasks = Vec::new(alloc);
    let mut types = Vec::new(alloc);
    tasks.push(Task::Enter(source))?;
    while let Some(task) = tasks.pop() {
        match task {
            Task::Enter(part) => {
                tasks.push(Task::Make(part))?;
                enter_parts(&mut tasks, part)?;
            }
            Task::Make(part) => make(alloc, parameters, &mut types, part)?,
        }
    }
    Ok(pop_type(&mut types))
}
