// A list of work over types.
ghost use Rattle.std.specs.Prelude.{◌≡◌, ◌++◌, map, OnOk};
ghost use Rattle.lq_text_tree.specs.SimpleTypeView.{simple_type_view, simple_types_view};
ghost use Rattle.lq_types_rules.specs.Constructors.Tasks.{enter, listed, parts_of};
ghost use Rattle.lq_types_rules.specs.Constructors.Views.{tasks_view};

use lq_text_tree::{SimpleType, SimpleTypes};
use std::alloc::AllocError;

/// A type that is still to be entered, or one whose parts are on the stack.
#[derive(Clone, Copy)]
pub(crate) enum Task<'a> {
    Enter(&'a SimpleType),
    Make(&'a SimpleType),
}

// The types of a row are to be entered, the first next.
pub(crate) fn enter_row<'a>(
    tasks: &mut Vec<Task<'a>>,
    row: &'a SimpleTypes,
) -> Result<(), AllocError>
    ensures { OnOk result (tasks_view tasks.new.items
        ≡ map enter (listed (simple_types_view row.now)) ++ tasks_view tasks.old.items) }
{
    let count = row.len();
    for at in 0..count {
        if let Some(part) = row.get(count - 1 - at) {
            tasks.push(Task::Enter(part))?;
        }
    }
    Ok(())
}

// The parts of a type are to be entered, the first next.
pub(crate) fn enter_parts<'a>(
    tasks: &mut Vec<Task<'a>>,
    source: &'a SimpleType,
) -> Result<(), AllocError>
    ensures { OnOk result (tasks_view tasks.new.items
        ≡ map enter (parts_of (simple_type_view source.now)) ++ tasks_view tasks.old.items) }
{
    match source {
        SimpleType::Int | SimpleType::Bool | SimpleType::Unit | SimpleType::Var(_) => {}
        SimpleType::Arrow(taken, given) => {
            tasks.push(Task::Enter(given))?;
            tasks.push(Task::Enter(taken))?;
        }
        SimpleType::Tuple(row) => enter_row(tasks, row)?,
        SimpleType::Array(item) => tasks.push(Task::Enter(item))?,
        SimpleType::Named(_, row) => enter_row(tasks, row)?,
        SimpleType::Map(item) => tasks.push(Task::Enter(item))?,
    }
    Ok(())
}
