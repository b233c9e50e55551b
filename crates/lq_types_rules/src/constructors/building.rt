// Nodes for types.
ghost use Rattle.std.specs.Prelude.{◌≡◌, ℕ, ◌+◌, ◌<◌, ◌≤◌, ◌^◌, [], All, length, IfOk, OnOk};
ghost use Rattle.lq_text_tree.specs.MlType.{MlType};
ghost use Rattle.lq_text_tree.specs.SimpleTypeView.{simple_type_view, simple_types_view};
ghost use Rattle.lq_types_unify.specs.Nodes.{form_at};
ghost use Rattle.lq_types_rules.specs.Equations.Adding.{IsRight};
ghost use Rattle.lq_types_rules.specs.Equations.Solutions.{Fits};
ghost use Rattle.lq_types_rules.specs.Equations.Templates.{IsWhole, IsTemplate};
ghost use Rattle.lq_types_rules.specs.Constructors.Building.{IsBase, by_nodes, AreIn, IsMore, IsMade, IsOver, IsRow};
ghost use Rattle.lq_types_rules.specs.Constructors.Tasks.{parts_of};

use crate::constructors::tasks::{Task, enter_parts, enter_row};
use crate::equations::Template;
use lq_text_tree::{Name, SimpleType, SimpleTypes};
use lq_types_unify::{Arena, Head};
use std::alloc::{AllocError, Global};

// Nodes for so many parameters.
fn base(alloc: Global, count: u32) -> Result<Arena, AllocError>
    ensures { IfOk result (λ types. IsBase types count) }
{
    let mut types = Arena::new(alloc);
    for _ in 0..count {
        types.open()?;
    }
    Ok(types)
}

// The node of a variable: that of its parameter, or one for unit behind the last of them.
fn variable(types: &mut Arena, parameters: u32, variable: u64) -> Result<u32, AllocError>
    requires { IsBase types.old parameters }
    ensures more { OnOk result (IsMore types.old types.new parameters) }
    ensures inside { IfOk result (λ node. node < length types.new.nodes.items) }
    ensures is { IfOk result (λ node. (t : ℕ → MlType) → Fits (form_at types.new) t
        → t node ≡ by_nodes parameters t variable) }
{
    if variable < parameters as u64 {
        return Ok(variable as u32);
    }
    let node = types.made(Head::Unit, &[])?;
    Ok(node)
}

// The last nodes of the stack, so many, give way to one of this head over them.
fn over(
    types: &mut Arena,
    parameters: u32,
    stack: &mut Vec<u32>,
    head: Head,
    count: usize,
) -> Result<(), AllocError>
    requires base { IsBase types.old parameters }
    requires inside { AreIn types.old stack.old.items }
    requires count { count ≤ length stack.old.items }
    requires right { IsRight head count }
    ensures { OnOk result (IsOver types.old types.new parameters stack.old.items stack.new.items head count) }
{
    let from = stack.len() - count;
    let node = types.made(head, &stack[from..])?;
    stack.truncate(from);
    stack.push(node)?;
    Ok(())
}

// A node for a type whose parts' nodes are the last of the stack.
fn make(
    types: &mut Arena,
    parameters: u32,
    stack: &mut Vec<u32>,
    source: &SimpleType,
) -> Result<(), AllocError>
    requires base { IsBase types.old parameters }
    requires inside { AreIn types.old stack.old.items }
    requires count { length (parts_of (simple_type_view source.now)) ≤ length stack.old.items }
    ensures { OnOk result (IsMade types.old types.new parameters stack.old.items stack.new.items
        (simple_type_view source.now)) }
{
    match source {
        SimpleType::Int => over(types, parameters, stack, Head::Whole, 0)?,
        SimpleType::Bool => over(types, parameters, stack, Head::Flag, 0)?,
        SimpleType::Unit => over(types, parameters, stack, Head::Unit, 0)?,
        SimpleType::Var(number) => {
            let node = variable(types, parameters, *number)?;
            stack.push(node)?;
        }
        SimpleType::Arrow(_, _) => over(types, parameters, stack, Head::Arrow, 2)?,
        SimpleType::Tuple(row) => over(types, parameters, stack, Head::Tuple, row.len())?,
        SimpleType::Array(_) => over(types, parameters, stack, Head::Array, 1)?,
        SimpleType::Named(name, row) => {
            over(types, parameters, stack, Head::Named(name.0), row.len())?
        }
        SimpleType::Map(_) => over(types, parameters, stack, Head::Map, 1)?,
    }
    Ok(())
}

// Nodes for the types of a row.
fn row_of(
    alloc: Global,
    types: &mut Arena,
    parameters: u32,
    row: &SimpleTypes,
) -> Result<Vec<u32>, AllocError>
    requires { IsBase types.old parameters }
    ensures { IfOk result (λ nodes. IsRow types.old types.new parameters nodes.items
        (simple_types_view row.now)) }
{
    let mut tasks = Vec::new(alloc);
    let mut stack = Vec::new(alloc);
    enter_row(&mut tasks, row)?;
    while let Some(task) = tasks.pop() {
        match task {
            Task::Enter(part) => {
                tasks.push(Task::Make(part))?;
                enter_parts(&mut tasks, part)?;
            }
            Task::Make(part) => make(types, parameters, &mut stack, part)?,
        }
    }
    Ok(stack)
}

/// A constructor of a datatype with so many parameters, of these fields' types, in which the parameters are the variables 0, 1, ..
/// Its nodes can be copied for each use.
pub fn template_of(
    alloc: Global,
    datatype: Name,
    parameters: u32,
    fields: &SimpleTypes,
) -> Result<Template, AllocError>
    ensures whole { IfOk result IsWhole }
    ensures template { IfOk result (λ made. IsTemplate made (record {
      datatype = datatype.0;
      parameters = parameters;
      fields = simple_types_view fields.now;
    })) }
{
    let mut types = base(alloc, parameters)?;
    let fields = row_of(alloc, &mut types, parameters, fields)?;
    Ok(Template {
        datatype: datatype.0,
        parameters,
        types,
        fields,
    })
}
