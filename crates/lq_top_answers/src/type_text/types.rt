// How types are written.
ghost use Rattle.std.specs.Prelude.{◌≡◌, ◌++◌, OnOk, codes};
ghost use Rattle.lq_logic_text.specs.Continued.{Continues};
ghost use Rattle.lq_refined_subtyping.specs.Table.Forms.{binder_view};
ghost use Rattle.lq_top_answers.specs.TypeText.Types.{argument_name, argument_texts, arguments_text, component_texts, form_text, guarded, in_row, lettered_text, type_line, type_text};
ghost use Rattle.lq_top_answers.specs.TypeText.ShownView.{row_view, shown_view};
ghost use Rattle.lq_top_answers.specs.TypeText.Views.{writing_view};

use crate::type_text::entries::push_entries;
use crate::type_text::letters::{add_letters, push_variable};
use crate::type_text::predicates::{push_separator, push_top};
use crate::type_text::tree::Shown;
use crate::type_text::writing::Writing;
use lq_base_names::Binder;
use lq_logic_predicates::Symbol;
use lq_logic_text::push_symbol;
use std::alloc::{AllocError, Global};

// Writes the name of a function's argument, where it has one.
#[tactic(auto, using(lq_logic_text::specs::Continued::continuing))]
fn push_argument_name(
    line: &mut Vec<u8>,
    writing: &Writing<'_>,
    name: Option<Binder>,
) -> Result<(), AllocError>
    ensures written { OnOk result (line.new.items ≡ line.old.items
        ++ argument_name (writing_view writing.now).calling (binder_view name)) }
    ensures begins { Continues line.old.items line.new.items }
{
    match name {
        Some(name) => {
            let calling = writing.calling();
            push_symbol(line, &calling, Symbol::Bound(name))?;
            line.extend_from_slice(b":")
        }
        None => Ok(()),
    }
}

// Writes a type in which the variables have letters by their places among these.
#[cycle(types)]
#[tactic(auto, using(lq_logic_text::specs::Continued::continuing))]
fn push_lettered(
    line: &mut Vec<u8>,
    writing: &Writing<'_>,
    seen: &[u64],
    shown: &Shown,
) -> Result<(), AllocError>
    ensures written { OnOk result (line.new.items ≡ line.old.items
        ++ lettered_text (writing_view writing.now) seen.now (shown_view shown.now)) }
    ensures begins { Continues line.old.items line.new.items }
{
    let top = shown.top();
    if top.len() == 0 {
        push_form(line, writing, seen, shown)
    } else {
        line.extend_from_slice(b"{v:")?;
        push_form(line, writing, seen, shown)?;
        push_top(line, &writing.calling(), top)
    }
}

// The same, a function in parentheses.
#[cycle(types)]
#[tactic(auto, using(lq_logic_text::specs::Continued::continuing))]
fn push_guarded(
    line: &mut Vec<u8>,
    writing: &Writing<'_>,
    seen: &[u64],
    shown: &Shown,
) -> Result<(), AllocError>
    ensures written { OnOk result (line.new.items ≡ line.old.items
        ++ guarded (shown_view shown.now) (lettered_text (writing_view writing.now) seen.now (shown_view shown.now))) }
    ensures begins { Continues line.old.items line.new.items }
{
    if shown.is_function() {
        line.extend_from_slice(b"(")?;
        push_lettered(line, writing, seen, shown)?;
        line.extend_from_slice(b")")
    } else {
        push_lettered(line, writing, seen, shown)
    }
}

// Writes a type without what is said at its top.
#[cycle(types)]
#[tactic(auto, using(lq_logic_text::specs::Continued::continuing))]
fn push_form(
    line: &mut Vec<u8>,
    writing: &Writing<'_>,
    seen: &[u64],
    shown: &Shown,
) -> Result<(), AllocError>
    ensures written { OnOk result (line.new.items ≡ line.old.items
        ++ form_text (writing_view writing.now) seen.now (shown_view shown.now)) }
    ensures begins { Continues line.old.items line.new.items }
{
    match shown {
        Shown::Int(_) => line.extend_from_slice(b"int"),
        Shown::Bool(_) => line.extend_from_slice(b"bool"),
        Shown::Unit => line.extend_from_slice(b"unit"),
        Shown::Function(name, argument, result) => {
            push_argument_name(line, writing, *name)?;
            push_guarded(line, writing, seen, argument)?;
            line.extend_from_slice(b" -> ")?;
            push_lettered(line, writing, seen, result)
        }
        Shown::Tuple(parts) => {
            line.extend_from_slice(b"(")?;
            push_components(line, writing, seen, parts)?;
            line.extend_from_slice(b")")
        }
        Shown::Array(element, _) => {
            push_guarded(line, writing, seen, element)?;
            line.extend_from_slice(b" array")
        }
        Shown::Data(name, arguments, entries, _) => {
            push_arguments(line, writing, seen, arguments)?;
            writing.push_name(line, *name)?;
            push_entries(line, writing, *name, entries)
        }
        Shown::Map(element, _) => {
            push_guarded(line, writing, seen, element)?;
            line.extend_from_slice(b" map")
        }
        Shown::Variable(variable) => push_variable(line, seen, *variable),
    }
}

// Writes the components of a tuple.
#[cycle(types)]
#[tactic(auto, using(lq_logic_text::specs::Continued::continuing))]
fn push_components(
    line: &mut Vec<u8>,
    writing: &Writing<'_>,
    seen: &[u64],
    parts: &[Shown],
) -> Result<(), AllocError>
    ensures written { OnOk result (line.new.items ≡ line.old.items
        ++ in_row (codes " * ") (component_texts (writing_view writing.now) seen.now (row_view parts.now))) }
    ensures begins { Continues line.old.items line.new.items }
{
    for (at, part) in parts.iter().enumerate() {
        push_separator(line, b" * ", at)?;
        push_lettered(line, writing, seen, part)?;
    }
    Ok(())
}

// Writes arguments with commas between.
#[cycle(types)]
#[tactic(auto, using(lq_logic_text::specs::Continued::continuing))]
fn push_listed(
    line: &mut Vec<u8>,
    writing: &Writing<'_>,
    seen: &[u64],
    arguments: &[Shown],
) -> Result<(), AllocError>
    ensures written { OnOk result (line.new.items ≡ line.old.items
        ++ in_row (codes ", ") (argument_texts (writing_view writing.now) seen.now (row_view arguments.now))) }
    ensures begins { Continues line.old.items line.new.items }
{
    for (at, each) in arguments.iter().enumerate() {
        push_separator(line, b", ", at)?;
        push_guarded(line, writing, seen, each)?;
    }
    Ok(())
}

// Writes several arguments before the name of a datatype.
#[cycle(types)]
#[tactic(auto, using(lq_logic_text::specs::Continued::continuing))]
fn push_several(
    line: &mut Vec<u8>,
    writing: &Writing<'_>,
    seen: &[u64],
    arguments: &[Shown],
) -> Result<(), AllocError>
    ensures written { OnOk result (line.new.items ≡ line.old.items ++ (codes "("
        ++ in_row (codes ", ") (argument_texts (writing_view writing.now) seen.now (row_view arguments.now)) ++ codes ") ")) }
    ensures begins { Continues line.old.items line.new.items }
{
    line.extend_from_slice(b"(")?;
    push_listed(line, writing, seen, arguments)?;
    line.extend_from_slice(b") ")
}

// Writes the arguments before the name of a datatype.
#[cycle(types)]
#[tactic(auto, using(lq_logic_text::specs::Continued::continuing))]
fn push_arguments(
    line: &mut Vec<u8>,
    writing: &Writing<'_>,
    seen: &[u64],
    arguments: &[Shown],
) -> Result<(), AllocError>
    ensures written { OnOk result (line.new.items ≡ line.old.items
        ++ arguments_text (argument_texts (writing_view writing.now) seen.now (row_view arguments.now))) }
    ensures begins { Continues line.old.items line.new.items }
{
    match arguments {
        [] => Ok(()),
        [only] => {
            push_guarded(line, writing, seen, only)?;
            line.extend_from_slice(b" ")
        }
        _ => push_several(line, writing, seen, arguments),
    }
}

/// Writes a type behind the bytes.
///
/// - `int`, `bool`, `unit`, `T array`, `T map`; a datatype by its name, behind its argument, or behind its arguments in parentheses with commas
///   between; a tuple as `(T * U)`; a function as `x:T -> U`, or `T -> U` where it has no name for its argument.
/// - A function stands in parentheses left of an arrow and as an argument of the name of a type, and without any in a tuple.
/// - A type with predicates at its top is `{v:T | P && Q}`, `T` being the type without them. One alone has no parentheses; among several a
///   disjunction or an equivalence has.
/// - Behind the name of a datatype stand the entries of its matrix that have predicates, as ` [C 2 'a: P && Q; D 1 'b: R]`: the constructor, the
///   field counted from 1, the datatype's own name of the parameter, and what holds of it there.
/// - Type variables have letters by their first appearance in the text: `'a` to `'z`, then `'a1` to `'z1` and so on.
#[tactic(auto, using(lq_logic_text::specs::Continued::continuing))]
pub fn push_type(
    alloc: Global,
    line: &mut Vec<u8>,
    writing: &Writing<'_>,
    shown: &Shown,
) -> Result<(), AllocError>
    ensures written { OnOk result (line.new.items ≡ line.old.items
        ++ type_text (writing_view writing.now) (shown_view shown.now)) }
    ensures begins { Continues line.old.items line.new.items }
{
    let mut seen = Vec::new(alloc);
    add_letters(&mut seen, shown)?;
    push_lettered(line, writing, &seen, shown)
}

/// Writes a name with its type as a line behind the bytes.
#[tactic(auto, using(lq_logic_text::specs::Continued::continuing))]
pub fn push_line(
    alloc: Global,
    line: &mut Vec<u8>,
    writing: &Writing<'_>,
    name: &[u8],
    shown: &Shown,
) -> Result<(), AllocError>
    ensures written { OnOk result (line.new.items ≡ line.old.items
        ++ type_line (writing_view writing.now) name.now (shown_view shown.now)) }
    ensures begins { Continues line.old.items line.new.items }
{
    line.extend_from_slice(name)?;
    line.extend_from_slice(b" : ")?;
    push_type(alloc, line, writing, shown)?;
    line.extend_from_slice(b"\n")
}
