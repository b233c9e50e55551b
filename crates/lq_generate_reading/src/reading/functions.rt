// What is read of a block without points: the names of a function's arguments, its type, and its number.
ghost use Rattle.std.specs.Prelude.{◌≡◌, ◌<◌, ◌∷◌, ◌++◌, IfOk, OnOk, MatchOption, length, map};
ghost use Rattle.lq_meaning_normal_tree.specs.BlockView.{block_view, branch_view, operation_view};
ghost use Rattle.lq_meaning_normal_tree.specs.declared.block.Block.{out-Block};
ghost use Rattle.lq_refined_templates.specs.Programs.PointView.{name_view};
ghost use Rattle.lq_refined_templates.specs.Points.Annotation.{Annotation, argument_name, type_of, type_of_form};
ghost use Rattle.lq_refined_templates.specs.Points.Reading.{written_names};
ghost use Rattle.lq_text_walk.specs.Scoped.Numbers.{number_of};
ghost use Rattle.lq_text_tree.specs.Tree.{Tree, match_on};
ghost use Rattle.lq_text_tree.specs.TreeView.{cases_of};
ghost use Rattle.lq_types_table.specs.Nodes.{at as type_at};
ghost use Rattle.lq_generate_reading.specs.Visibility.Notes.{annotation_view, types_in, IsRight};
ghost use Rattle.lq_generate_reading.specs.Reading.Lets.{IsLet};

use crate::visibility::Notes;
use lq_base_names::Binder;
use lq_meaning_normal_tree::{Block, Branch, Operation, OperationNode};
use std::alloc::{AllocError, Global};

// The number of the first binding of a block.
fn first_number(block: &Block) -> Option<u32>
    ensures { MatchOption result (block_view block.now ≡ operation_view (out-Block block.now).last) (λ i. (n : Annotation) → IsLet n i (block_view block.now)) }
{
    match block.bindings.first() {
        Some(binding) => Some(binding.id),
        None => None,
    }
}

// The names of the arguments of a function that a block is, and so on, behind others.
fn push_written(
    names: &mut Vec<Option<Binder>>,
    notes: &Notes<'_>,
    block: &Block,
) -> Result<(), AllocError>
    ensures { OnOk result (map name_view names.new.items
        ≡ map name_view names.old.items ++ written_names (annotation_view notes.now) (block_view block.now)) }
{
    match first_number(block) {
        Some(_) => Ok(()),
        None => match &block.last.node {
            OperationNode::Fun(local, body) => {
                names.push(notes.argument_name(local.binder))?;
                push_written(names, notes, body)?;
                Ok(())
            }
            _ => Ok(()),
        },
    }
}

/// The names of the arguments of a function that is written directly, and so on through functions that are its whole body.
pub(crate) fn function_names(
    alloc: Global,
    notes: &Notes<'_>,
    parameter: Binder,
    body: &Block,
) -> Result<Vec<Option<Binder>>, AllocError>
    ensures { IfOk result (λ names. map name_view names.items
        ≡ argument_name (annotation_view notes.now) parameter.0 ∷ written_names (annotation_view notes.now) (block_view body.now)) }
{
    let mut names = Vec::new(alloc);
    names.push(notes.argument_name(parameter))?;
    push_written(&mut names, notes, body)?;
    Ok(names)
}

// The type of a block.
#[cycle(types)]
fn type_of_block(notes: &Notes<'_>, block: &Block) -> u32
    requires { IsRight notes.now }
    ensures is { type_at (types_in notes.now) result ≡ type_of (annotation_view notes.now) (block_view block.now) }
    ensures there { result < length (types_in notes.now) }
{
    match first_number(block) {
        Some(number) => notes.type_of(number),
        None => type_of_operation(notes, &block.last),
    }
}

#[cycle(types)]
fn type_of_operation(notes: &Notes<'_>, operation: &Operation) -> u32
    requires { IsRight notes.now }
    ensures is { type_at (types_in notes.now) result ≡ type_of (annotation_view notes.now) (operation_view operation.now) }
    ensures there { result < length (types_in notes.now) }
{
    match &operation.node {
        OperationNode::Match(_, _, branches) => type_of_match(notes, operation.id, branches),
        _ => notes.type_of(operation.id),
    }
}

/// The type of a match. One that was made for a parameter has no number of its own, but 0.
#[cycle(types)]
pub(crate) fn type_of_match(notes: &Notes<'_>, id: u32, branches: &[Branch]) -> u32
    requires { IsRight notes.now }
    ensures is { (e : Tree) → type_at (types_in notes.now) result
        ≡ type_of_form (annotation_view notes.now) id (match_on e (cases_of (map branch_view branches.now))) }
    ensures there { result < length (types_in notes.now) }
{
    match branches {
        [first, ..] => {
            if id == 0 {
                type_of_block(notes, &first.body)
            } else {
                notes.type_of(id)
            }
        }
        [] => notes.type_of(id),
    }
}

/// The number of a block.
pub(crate) fn number_of(block: &Block) -> u32
    ensures { result ≡ number_of (block_view block.now) }
{
    match first_number(block) {
        Some(number) => number,
        None => block.last.id,
    }
}
