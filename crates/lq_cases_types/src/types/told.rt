// What is told of the types of a program, as text.
ghost use Rattle.std.specs.Prelude.{◌≡◌, true, IfOk, IfSome};
ghost use Rattle.lq_text_resolve.specs.Resolution.Parameters.{have_places};
ghost use Rattle.lq_text_tree.specs.Texts.{program_view};

use crate::types::type_text::{text_of, type_text};
use lq_base_names::{Binder, NameTable, Place, TextKind};
use lq_text_front::trees::parsed_programs_have_places;
use lq_text_lexer::{TEXT_LIMIT, lex};
use lq_text_parser::parse::parse_program;
use lq_text_resolve::resolution::{ResolveError, resolve};
use lq_text_tree::{ItemNode, Pat, PatNode, Program};
use lq_text_walk::scoped::Scoped;
use lq_types_infer::annotation::{Annotated, TypeError, infer};
use std::alloc::{AllocError, Global};

// A table with so many names has room for those of a text.
const ROOM: u32 = 1 << 31;

fn program_of(
    alloc: Global,
    names: &mut NameTable,
    text: &[u8],
) -> Result<Option<Program>, AllocError>
    ensures { IfOk result (λ found. IfSome found (λ p. have_places (program_view p) ≡ true)) }
{
    parsed_programs_have_places();
    if text.len() > TEXT_LIMIT || names.len() > ROOM {
        return Ok(None);
    }
    let Ok(tokens) = lex(alloc, text, TextKind::Program) else {
        return Ok(None);
    };
    match parse_program(alloc, &tokens, text, names) {
        Ok(program) => Ok(Some(program)),
        Err(_) => Ok(None),
    }
}

// The source name of a binder.
fn name_of<'a>(names: &'a NameTable, scoped: &Scoped, binder: Binder) -> &'a str {
    if binder.0 as usize >= scoped.binders() {
        return "?";
    }
    match scoped.source_of(binder) {
        Some(name) => text_of(names, name),
        None => "?",
    }
}

fn name_in<'a>(names: &'a NameTable, scoped: &Scoped, pattern: &Pat<Binder>) -> &'a str {
    match &pattern.node {
        PatNode::Bind(binder) => name_of(names, scoped, *binder),
        _ => "_",
    }
}

// A definition with the type of its node, which the program has.
fn put_definition(
    alloc: Global,
    lines: &mut Vec<String>,
    names: &NameTable,
    annotated: &Annotated,
    name: &str,
    id: u32,
) -> Result<(), AllocError> {
    if id as usize >= annotated.nodes() {
        return Ok(());
    }
    let row = annotated.type_of(id);
    let of = type_text(alloc, names, annotated.types(), row)?;
    lines.push(format!(in alloc; "{name} : {of}")?)?;
    Ok(())
}

// Each definition with its type; one without a name has `_`.
fn types_told(
    alloc: Global,
    names: &NameTable,
    annotated: &Annotated,
) -> Result<Vec<String>, AllocError> {
    let mut lines = Vec::new(alloc);
    let scoped = annotated.scoped();
    for item in scoped.items() {
        match &item.node {
            ItemNode::Type(_) => {}
            ItemNode::Let(pattern, value) => {
                let name = name_in(names, scoped, pattern);
                put_definition(alloc, &mut lines, names, annotated, name, value.id)?;
            }
            ItemNode::LetRec(binder, function) => {
                let name = name_of(names, scoped, *binder);
                put_definition(alloc, &mut lines, names, annotated, name, function.id)?;
            }
        }
    }
    Ok(lines)
}

fn at_place(alloc: Global, code: u8, place: Place) -> Result<String, AllocError> {
    let line = place.line;
    let column = place.column;
    format!(in alloc; "{code} at {line}:{column}")
}

// The code and the place of a refusal, and how large a type is.
fn error_told(alloc: Global, error: TypeError) -> Result<String, AllocError> {
    match error {
        TypeError::IllTyped(place) => at_place(alloc, 12, place),
        TypeError::WeakType(place) => at_place(alloc, 13, place),
        TypeError::TypePast(place, count) => {
            let told = at_place(alloc, 14, place)?;
            format!(in alloc; "{told}: {count}")
        }
        TypeError::Memory => String::from_str(alloc, "memory"),
    }
}

fn one_line(alloc: Global, line: String) -> Result<Vec<String>, AllocError> {
    let mut lines = Vec::new(alloc);
    lines.push(line)?;
    Ok(lines)
}

fn inferred(alloc: Global, names: &NameTable, scoped: Scoped) -> Result<Vec<String>, AllocError> {
    match infer(alloc, scoped) {
        Ok(annotated) => types_told(alloc, names, &annotated),
        Err(error) => one_line(alloc, error_told(alloc, error)?),
    }
}

/// The types of a program's definitions, or why it is refused.
pub(crate) fn told_of(alloc: Global, text: &[u8]) -> Result<Vec<String>, AllocError> {
    let mut names = NameTable::new(alloc)?;
    let Some(program) = program_of(alloc, &mut names, text)? else {
        return one_line(alloc, String::from_str(alloc, "no program")?);
    };
    match resolve(alloc, &program, &names) {
        Ok(scoped) => inferred(alloc, &names, scoped),
        Err(ResolveError::Complaint(complaint)) => {
            let told = at_place(alloc, complaint.cause.code(), complaint.place)?;
            one_line(alloc, told)
        }
        Err(ResolveError::Memory) => Err(AllocError),
    }
}
