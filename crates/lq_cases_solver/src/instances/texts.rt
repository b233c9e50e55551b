// Texts with their names bound.
ghost use Rattle.std.specs.Prelude.{◌≡◌, true, IfOk, IfSome};
ghost use Rattle.lq_text_resolve.specs.Resolution.Parameters.{have_places};
ghost use Rattle.lq_text_tree.specs.Texts.{program_view};

use lq_base_names::{Name, NameTable, TextKind};
use lq_text_front::texts::{ScopedTexts, resolve};
use lq_text_front::trees::parsed_programs_have_places;
use lq_text_lexer::{TEXT_LIMIT, lex};
use lq_text_parser::parse::{parse_measures, parse_program, parse_quals};
use lq_text_tree::{Measures, Program, Quals};
use std::alloc::{AllocError, Global};

// A table with so many names has room for those of a text.
const ROOM: u32 = 1 << 31;

fn program_of(
    alloc: Global,
    names: &mut NameTable,
    text: &[u8],
) -> Result<Option<Program>, AllocError>
    ensures { IfOk result (λ found. IfSome found (λ p. have_places (program_view p) ≡ true)) }
{
    parsed_programs_have_places();
    if text.len() > TEXT_LIMIT || names.len() > ROOM {
        return Ok(None);
    }
    let Ok(tokens) = lex(alloc, text, TextKind::Program) else {
        return Ok(None);
    };
    match parse_program(alloc, &tokens, text, names) {
        Ok(program) => Ok(Some(program)),
        Err(_) => Ok(None),
    }
}

fn measures_of(
    alloc: Global,
    names: &mut NameTable,
    text: &[u8],
) -> Result<Option<Measures>, AllocError> {
    if text.len() > TEXT_LIMIT || names.len() > ROOM {
        return Ok(None);
    }
    let Ok(tokens) = lex(alloc, text, TextKind::Measures) else {
        return Ok(None);
    };
    match parse_measures(alloc, &tokens, text, names) {
        Ok(measures) => Ok(Some(measures)),
        Err(_) => Ok(None),
    }
}

fn quals_of(
    alloc: Global,
    names: &mut NameTable,
    text: &[u8],
) -> Result<Option<Quals>, AllocError> {
    if text.len() > TEXT_LIMIT || names.len() > ROOM {
        return Ok(None);
    }
    let Ok(tokens) = lex(alloc, text, TextKind::Quals) else {
        return Ok(None);
    };
    match parse_quals(alloc, &tokens, text, names) {
        Ok(quals) => Ok(Some(quals)),
        Err(_) => Ok(None),
    }
}

/// The three texts with their names bound, or None where one of them is none or anything is wrong with it.
pub(crate) fn texts_of(
    alloc: Global,
    names: &mut NameTable,
    program: &str,
    measures: &str,
    qualifiers: &str,
) -> Result<Option<ScopedTexts>, AllocError> {
    let Some(program) = program_of(alloc, names, program.as_bytes())? else {
        return Ok(None);
    };
    let Some(measures) = measures_of(alloc, names, measures.as_bytes())? else {
        return Ok(None);
    };
    let Some(qualifiers) = quals_of(alloc, names, qualifiers.as_bytes())? else {
        return Ok(None);
    };
    match resolve(alloc, &program, &measures, &qualifiers, names) {
        Ok(texts) => Ok(Some(texts)),
        Err(_) => Ok(None),
    }
}

/// The name that a text is.
pub(crate) fn name_of(names: &mut NameTable, text: &str) -> Result<Option<Name>, AllocError> {
    if names.len() > ROOM {
        return Ok(None);
    }
    Ok(Some(names.intern(text)?))
}

/// The text of a name.
pub(crate) fn text_of(names: &NameTable, name: Name) -> &str {
    if name.0 < names.len() {
        names.text(name)
    } else {
        "?"
    }
}
