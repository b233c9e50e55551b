// What is wrong with a text, as text.
ghost use Rattle.std.specs.Prelude.{◌≡◌, true, IfOk, IfSome};
ghost use Rattle.lq_text_resolve.specs.Resolution.Parameters.{have_places};
ghost use Rattle.lq_text_tree.specs.Texts.{program_view};

use lq_base_names::{Name, NameTable, TextKind};
use lq_text_datatypes::datatypes_of;
use lq_text_front::trees::parsed_programs_have_places;
use lq_text_lexer::{TEXT_LIMIT, Tokens, lex};
use lq_text_parser::parse::{parse_measures, parse_program, parse_quals};
use lq_text_qualifiers::faults::{
    Cause, SortComplaint, first_measure_complaint, first_qualifier_complaint,
};
use lq_text_tree::{Measures, Program, Quals};
use std::alloc::{AllocError, Global};

// A table with so many names has room for those of a text.
const ROOM: u32 = 1 << 31;

pub(crate) fn program_of(
    alloc: Global,
    names: &mut NameTable,
    text: &[u8],
) -> Result<Option<Program>, AllocError>
    ensures { IfOk result (λ found. IfSome found (λ p. have_places (program_view p) ≡ true)) }
{
    parsed_programs_have_places();
    if text.len() > TEXT_LIMIT || names.len() > ROOM {
        return Ok(None);
    }
    let Ok(tokens) = lex(alloc, text, TextKind::Program) else {
        return Ok(None);
    };
    match parse_program(alloc, &tokens, text, names) {
        Ok(program) => Ok(Some(program)),
        Err(_) => Ok(None),
    }
}

pub(crate) fn measures_of(
    alloc: Global,
    names: &mut NameTable,
    text: &[u8],
) -> Result<Option<Measures>, AllocError> {
    if text.len() > TEXT_LIMIT || names.len() > ROOM {
        return Ok(None);
    }
    let Ok(tokens) = lex(alloc, text, TextKind::Measures) else {
        return Ok(None);
    };
    match parse_measures(alloc, &tokens, text, names) {
        Ok(measures) => Ok(Some(measures)),
        Err(_) => Ok(None),
    }
}

pub(crate) fn quals_of(
    alloc: Global,
    names: &mut NameTable,
    text: &[u8],
) -> Result<Option<Quals>, AllocError> {
    if text.len() > TEXT_LIMIT || names.len() > ROOM {
        return Ok(None);
    }
    let Ok(tokens) = lex(alloc, text, TextKind::Quals) else {
        return Ok(None);
    };
    match parse_quals(alloc, &tokens, text, names) {
        Ok(quals) => Ok(Some(quals)),
        Err(_) => Ok(None),
    }
}

pub(crate) fn text_of(names: &NameTable, name: Name) -> &str {
    if name.0 < names.len() {
        names.text(name)
    } else {
        "?"
    }
}

// The code and the column of a complaint, and what it tells; or that there is none.
fn told(
    alloc: Global,
    names: &NameTable,
    complaint: Option<SortComplaint>,
) -> Result<String, AllocError> {
    let Some(complaint) = complaint else {
        return String::from_str(alloc, "nothing");
    };
    let code = complaint.cause.code();
    let column = complaint.place.column;
    match complaint.cause {
        Cause::Unknown(name) | Cause::Twice(name) => {
            let text = text_of(names, name);
            format!(in alloc; "{code} at {column}: {text}")
        }
        Cause::UnknownIn(front, name) => {
            let upper = text_of(names, front);
            let lower = text_of(names, name);
            format!(in alloc; "{code} at {column}: {upper}.{lower}")
        }
        Cause::Arity(wanted, found) => {
            format!(in alloc; "{code} at {column}: wanted {wanted} found {found}")
        }
        Cause::NotStructural | Cause::BadSort => format!(in alloc; "{code} at {column}"),
    }
}

/// What is wrong with a text of measures, or a word where nothing is or a text is none.
pub(crate) fn measures_told(
    alloc: Global,
    program: &str,
    measures: &str,
) -> Result<String, AllocError> {
    let mut names = NameTable::new(alloc)?;
    let Some(program) = program_of(alloc, &mut names, program.as_bytes())? else {
        return String::from_str(alloc, "no program");
    };
    let Some(measures) = measures_of(alloc, &mut names, measures.as_bytes())? else {
        return String::from_str(alloc, "no measures");
    };
    let datatypes = datatypes_of(alloc, program.items())?;
    let found = first_measure_complaint(alloc, &measures, &datatypes, &names)?;
    told(alloc, &names, found)
}

/// What is wrong with a text of qualifiers, or a word where nothing is or a text is none.
pub(crate) fn quals_told(
    alloc: Global,
    program: &str,
    measures: &str,
    quals: &str,
) -> Result<String, AllocError> {
    let mut names = NameTable::new(alloc)?;
    let Some(program) = program_of(alloc, &mut names, program.as_bytes())? else {
        return String::from_str(alloc, "no program");
    };
    let Some(measures) = measures_of(alloc, &mut names, measures.as_bytes())? else {
        return String::from_str(alloc, "no measures");
    };
    let Some(quals) = quals_of(alloc, &mut names, quals.as_bytes())? else {
        return String::from_str(alloc, "no qualifiers");
    };
    let datatypes = datatypes_of(alloc, program.items())?;
    let found = first_qualifier_complaint(alloc, &quals, &measures, &datatypes, &names)?;
    told(alloc, &names, found)
}
