// What is wrong with the names of a program, as text.

use lq_base_names::{Name, NameTable, TextKind};
use lq_text_lexer::{TEXT_LIMIT, lex};
use lq_text_parser::parse::parse_program;
use lq_text_scope::{Cause, Complaint, first_complaint};
use std::alloc::{AllocError, Global};

fn text_of(names: &NameTable, name: Name) -> &str {
    if name.0 < names.len() {
        names.text(name)
    } else {
        "?"
    }
}

// The code and the column of a complaint, and what it tells.
fn told(alloc: Global, names: &NameTable, complaint: Complaint) -> Result<String, AllocError> {
    let code = complaint.cause.code();
    let column = complaint.place.column;
    match complaint.cause {
        Cause::Unknown(name) | Cause::Twice(name) => {
            let text = text_of(names, name);
            format!(in alloc; "{code} at {column}: {text}")
        }
        Cause::UnknownIn(front, name) => {
            let upper = text_of(names, front);
            let lower = text_of(names, name);
            format!(in alloc; "{code} at {column}: {upper}.{lower}")
        }
        Cause::Arity(wanted, found) => {
            format!(in alloc; "{code} at {column}: wanted {wanted} found {found}")
        }
        Cause::NotPositive => format!(in alloc; "{code} at {column}"),
    }
}

/// What is wrong with the names of a program, or a word where nothing is or the text is none.
pub(crate) fn told_of(alloc: Global, text: &[u8]) -> Result<String, AllocError> {
    if text.len() > TEXT_LIMIT {
        return String::from_str(alloc, "too long");
    }
    let Ok(tokens) = lex(alloc, text, TextKind::Program) else {
        return String::from_str(alloc, "no tokens");
    };
    let mut names = NameTable::new(alloc)?;
    match parse_program(alloc, &tokens, text, &mut names) {
        Ok(program) => match first_complaint(alloc, &program, &names)? {
            Some(complaint) => told(alloc, &names, complaint),
            None => String::from_str(alloc, "nothing"),
        },
        Err(_) => String::from_str(alloc, "no program"),
    }
}
