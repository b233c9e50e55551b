// The lines on the types of definitions.
ghost use Rattle.std.specs.Prelude.{◌≡◌, ◌<◌, ◌++◌, IfOk, IfSome, OnOk, Some, map, slice_get, List, ℕ};
ghost use Rattle.std.specs.Option.{option_copied};
ghost use Rattle.lq_top_answers.specs.Assignment.Views.{assignment_view};
ghost use Rattle.lq_refined_rules.specs.Checks.Tree.{no_items};
ghost use Rattle.lq_refined_templates.specs.Programs.BlockView.{block_view, item_view, operation_view, program_view};
ghost use Rattle.lq_logic_text.specs.Calling.{name_text};
ghost use Rattle.lq_logic_text.specs.Views.{source_view};
ghost use Rattle.lq_refined_types.specs.Types.Operations.{under};
ghost use Rattle.lq_refined_types.specs.Types.Refined.{Refined};
ghost use Rattle.lq_refined_subtyping.specs.Table.Whole.{count_of, refined_at, Grows};
ghost use Rattle.lq_refined_substitution.specs.Substitution.Views.{scopes_view};
ghost use Rattle.lq_top_answers.specs.TypeText.ShownView.{shown_view};
ghost use Rattle.lq_top_answers.specs.TypeText.Views.{writing_view};
ghost use Rattle.lq_top_answers.specs.Inferred.Lines.{definition_line, function_point, named_line, point_of, types_text_of, Inferred};
ghost use Rattle.lq_top_answers.specs.Inferred.Views.{AreBelow, AreThere, at_or_unit, inferred_in, line_of, plain_line, solution_view, template_in, template_of};

use crate::assignment::{Assignment, Given};
use crate::type_text::{Shown, Writing, push_line, shown};
use lq_base_names::{Binder, Name, NameTable, TextBuf};
use lq_refined_substitution::substitution::Scopes;
use lq_refined_subtyping::table::RefinedTypes;
use lq_refined_templates::programs::{Block, Item, Operation};
use std::alloc::{AllocError, Global};

// The point of a function, and of another operation this one.
fn function_point(point: usize, operation: &Operation) -> usize
    ensures { result ≡ function_point point (operation_view operation.now) }
{
    match operation {
        Operation::Fun(inner, _, _) => *inner,
        _ => point,
    }
}

// The point whose template a definition with this point and this block has.
fn point_of(point: usize, block: &Block) -> usize
    ensures { result ≡ point_of point (block_view block.now) }
{
    function_point(point, &block.last)
}

// The text of a name.
fn text_of(table: &NameTable, name: Name) -> &str
    ensures { result.now ≡ name_text table.now name.0 }
{
    if name.0 < table.len() {
        table.text(name)
    } else {
        ""
    }
}

fn first_of(row: &[usize]) -> Option<usize>
    ensures { result ≡ slice_get row.now 0 }
{
    row.first().copied()
}

fn row_at(templates: &[Vec<usize>], point: usize) -> Option<&Vec<usize>>
    ensures { option_copied result ≡ slice_get templates.now point }
{
    templates.get(point)
}

// The number of the template of a point.
fn row_of(templates: &[Vec<usize>], point: usize) -> Option<usize>
    ensures template { (types : List Refined) → template_of types templates.now point
        ≡ at_or_unit types result }
    ensures below { (n : ℕ) → AreBelow n templates.now → IfSome result (λ r. r < n) }
{
    match row_at(templates, point) {
        Some(row) => first_of(row.as_slice()),
        None => None,
    }
}

// The templates of points, what their unknowns stand for, and how types are written.
#[derive(Clone, Copy)]
struct Solution<'a> {
    templates: &'a [Vec<usize>],
    scopes: &'a Scopes,
    assignment: &'a Assignment,
    writing: &'a Writing<'a>,
}

// The type of a number under the assignment.
fn type_at(
    alloc: Global,
    types: &mut RefinedTypes,
    solution: &Solution<'_>,
    row: usize,
) -> Result<Shown, AllocError>
    requires { row < count_of types.old }
    ensures shown { IfOk result (λ made. shown_view made ≡ under (assignment_view solution.now.assignment.now)
        (refined_at (scopes_view solution.now.scopes.now) types.old row)) }
    ensures grows { Grows types.old types.new }
{
    let given = Given {
        scopes: solution.scopes,
        assignment: solution.assignment,
    };
    let made = shown(alloc, types, &given, row);
    let Given {
        scopes: _scopes,
        assignment: _assignment,
    } = given;
    made
}

// The type of a definition with the template of this point.
fn type_of(
    alloc: Global,
    types: &mut RefinedTypes,
    solution: &Solution<'_>,
    point: usize,
) -> Result<Shown, AllocError>
    requires { AreThere types.old solution.now.templates.now }
    ensures shown { IfOk result (λ made. shown_view made ≡ under (assignment_view solution.now.assignment.now)
        (template_in (scopes_view solution.now.scopes.now) types.old solution.now.templates.now point)) }
    ensures grows { Grows types.old types.new }
{
    match row_of(solution.templates, point) {
        Some(row) => type_at(alloc, types, solution, row),
        None => Ok(Shown::Unit),
    }
}

// The source name of a binder.
fn source_of(sources: &[Option<Name>], binder: Binder) -> Option<Name>
    ensures { (i : Inferred) (t : Refined) → named_line i t (slice_get (map source_view sources.now) binder.0)
        ≡ plain_line i t result }
{
    match source_at(sources, binder.0 as usize) {
        Some(source) => source,
        None => None,
    }
}

fn source_at(sources: &[Option<Name>], number: usize) -> Option<Option<Name>>
    ensures { result ≡ slice_get sources.now number }
{
    sources.get(number).copied()
}

// Writes the line on a name with the template of this point.
fn push_named(
    alloc: Global,
    line: &mut Vec<u8>,
    types: &mut RefinedTypes,
    solution: &Solution<'_>,
    name: Name,
    point: usize,
) -> Result<(), AllocError>
    requires { AreThere types.old solution.now.templates.now }
    ensures text { OnOk result (line.new.items ≡ line.old.items ++ plain_line (solution_view types.old solution.now)
        (under (assignment_view solution.now.assignment.now)
        (template_in (scopes_view solution.now.scopes.now) types.old solution.now.templates.now point)) (Some name)) }
    ensures grows { Grows types.old types.new }
{
    let tree = type_of(alloc, types, solution, point)?;
    let text = text_of(solution.writing.table, name).as_bytes();
    push_line(alloc, line, solution.writing, text, &tree)?;
    Ok(())
}

// Writes the line on a definition: its name, and its point.
fn push_definition(
    alloc: Global,
    line: &mut Vec<u8>,
    types: &mut RefinedTypes,
    solution: &Solution<'_>,
    definition: (Binder, usize),
) -> Result<(), AllocError>
    requires { AreThere types.old solution.now.templates.now }
    ensures text { OnOk result (line.new.items ≡ line.old.items
        ++ definition_line (solution_view types.old solution.now) definition.0.0 definition.1) }
    ensures grows { Grows types.old types.new }
{
    match source_of(solution.writing.sources, definition.0) {
        Some(name) => push_named(alloc, line, types, solution, name, definition.1),
        None => Ok(()),
    }
}

// The name and the point of a definition.
fn definition_of(item: &Item) -> Option<(Binder, usize)>
    ensures { (i : Inferred) → types_text_of i (item_view item.now no_items) ≡ line_of i result }
{
    match item {
        Item::Define(name, _, point, block) => Some((*name, point_of(*point, block))),
        Item::DefineFunction(name, point, _, _) => Some((*name, *point)),
        Item::RunUnit(_) | Item::RunAny(_) => None,
    }
}

// Writes the line on an item, where it is a definition.
fn push_item(
    alloc: Global,
    line: &mut Vec<u8>,
    types: &mut RefinedTypes,
    solution: &Solution<'_>,
    item: &Item,
) -> Result<(), AllocError>
    requires { AreThere types.old solution.now.templates.now }
    ensures text { OnOk result (line.new.items ≡ line.old.items
        ++ types_text_of (solution_view types.old solution.now) (item_view item.now no_items)) }
    ensures grows { Grows types.old types.new }
{
    match definition_of(item) {
        Some(definition) => push_definition(alloc, line, types, solution, definition),
        None => Ok(()),
    }
}

// Writes the lines on a program.
fn push_items(
    alloc: Global,
    text: &mut Vec<u8>,
    types: &mut RefinedTypes,
    solution: &Solution<'_>,
    program: &[Item],
) -> Result<(), AllocError>
    requires { AreThere types.old solution.now.templates.now }
    ensures text { OnOk result (text.new.items ≡ text.old.items
        ++ types_text_of (solution_view types.old solution.now) (program_view program.now)) }
    ensures grows { Grows types.old types.new }
{
    for item in program {
        push_item(alloc, text, types, solution, item)?;
    }
    Ok(())
}

/// The types of a program's definitions, a line each, in order: of each definition that has a source name, by that name, the template of its
/// point under the assignment, and of one whose block ends in a function that of the function's point. What is run has no line.
pub fn types_text(
    alloc: Global,
    program: &[Item],
    templates: &[Vec<usize>],
    types: &mut RefinedTypes,
    scopes: &Scopes,
    assignment: &Assignment,
    writing: &Writing<'_>,
) -> Result<TextBuf, AllocError>
    requires { AreThere types.old templates.now }
    ensures text { IfOk result (λ text. text ≡ types_text_of (inferred_in (scopes_view scopes.now) types.old templates.now
        (assignment_view assignment.now) (writing_view writing.now)) (program_view program.now)) }
    ensures grows { Grows types.old types.new }
{
    let solution = Solution {
        templates,
        scopes,
        assignment,
        writing,
    };
    let mut text = Vec::new(alloc);
    push_items(alloc, &mut text, types, &solution, program)?;
    Ok(TextBuf::from_bytes(text))
}
