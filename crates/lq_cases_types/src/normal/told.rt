// The normal form of a program that is read from a text.
ghost use Rattle.std.specs.Prelude.{◌≡◌, true, IfOk, IfSome};
ghost use Rattle.lq_text_resolve.specs.Resolution.Parameters.{have_places};
ghost use Rattle.lq_text_tree.specs.Texts.{program_view};

use crate::normal::names::{Names, sources_of};
use crate::normal::printing::Printer;
use lq_base_names::{NameTable, TextKind};
use lq_meaning_normal_tree::Definition;
use lq_meaning_normalize::made_names::made_numbers;
use lq_meaning_normalize::normalize::{NormalProgram, normal};
use lq_text_front::trees::parsed_programs_have_places;
use lq_text_lexer::lex;
use lq_text_parser::parse::parse_program;
use lq_text_resolve::resolution::{ResolveError, resolve};
use lq_text_tree::Program;
use lq_text_walk::scoped::Scoped;
use std::alloc::{AllocError, Global};

fn program_of(
    alloc: Global,
    names: &mut NameTable,
    text: &[u8],
) -> Result<Option<Program>, AllocError>
    ensures { IfOk result (λ found. IfSome found (λ p. have_places (program_view p) ≡ true)) }
{
    parsed_programs_have_places();
    if text.len() > 1000 || names.len() > 1000 {
        return Ok(None);
    }
    let Ok(tokens) = lex(alloc, text, TextKind::Program) else {
        return Ok(None);
    };
    match parse_program(alloc, &tokens, text, names) {
        Ok(program) => Ok(Some(program)),
        Err(_) => Ok(None),
    }
}

fn definition_text(
    alloc: Global,
    names: Names,
    places: bool,
    definition: &Definition,
) -> Result<String, AllocError> {
    let out = String::new(alloc);
    let mut printer = Printer {
        alloc,
        names,
        places,
        out,
    };
    printer.definition(definition)?;
    Ok(printer.out)
}

fn lines_of(
    alloc: Global,
    table: &NameTable,
    scoped: &Scoped,
    program: &NormalProgram,
    places: bool,
) -> Result<Vec<String>, AllocError> {
    let sources = sources_of(alloc, scoped)?;
    let made = made_numbers(alloc, &sources, program.definitions())?;
    let names = Names {
        table,
        sources: &sources,
        made: &made,
    };
    let mut lines = Vec::new(alloc);
    for definition in program.definitions() {
        lines.push(definition_text(alloc, names, places, definition)?)?;
    }
    Ok(lines)
}

fn one_line(alloc: Global, line: &str) -> Result<Vec<String>, AllocError> {
    let line = String::from_str(alloc, line)?;
    let mut lines = Vec::new(alloc);
    lines.push(line)?;
    Ok(lines)
}

/// The definitions of a program in normal form, a line each, or a word where the text is none whose names are bound. The `@` before a
/// program whose places are wanted is no part of it.
pub(crate) fn told_of(alloc: Global, text: &[u8], places: bool) -> Result<Vec<String>, AllocError> {
    let mut names = NameTable::new(alloc)?;
    let text = if places && text.len() > 0 {
        &text[1..]
    } else {
        text
    };
    let Some(program) = program_of(alloc, &mut names, text)? else {
        return one_line(alloc, "no program");
    };
    match resolve(alloc, &program, &names) {
        Ok(scoped) => {
            let program = normal(alloc, &scoped)?;
            lines_of(alloc, &names, &scoped, &program, places)
        }
        Err(ResolveError::Complaint(_complaint)) => one_line(alloc, "names are refused"),
        Err(ResolveError::Memory) => Err(AllocError),
    }
}
