// What a walk meets, as text.

use lq_base_names::{Name, NameTable, Place, TextKind};
use lq_text_lexer::lex;
use lq_text_parser::parse::parse_program;
use lq_text_tree::Program;
use lq_text_walk::walk::{Visit, Walk};
use std::alloc::{AllocError, Global};

fn put(alloc: Global, out: &mut String, word: &str, place: Place) -> Result<(), AllocError> {
    let column = place.column;
    let text = format!(in alloc; " {word}{column}")?;
    out.push_str(text.as_str())
}

// A visit: what it is, and the column where it stands.
fn put_visit(alloc: Global, out: &mut String, visit: Visit<'_, Name>) -> Result<(), AllocError> {
    match visit {
        Visit::EnterItem(item) => put(alloc, out, "item", item.place),
        Visit::LeaveItem(item) => put(alloc, out, "end", item.place),
        Visit::Enter(node) => put(alloc, out, "(", node.place),
        Visit::Leave(node) => put(alloc, out, ")", node.place),
        Visit::LeaveFunction(function) => put(alloc, out, "function", function.place),
        Visit::Declare(pattern) => put(alloc, out, "declare", pattern.place),
        Visit::Show(pattern) => put(alloc, out, "show", pattern.place),
        Visit::Hide(pattern) => put(alloc, out, "hide", pattern.place),
        Visit::ShowName(_) => out.push_str(" show"),
        Visit::HideName(_) => out.push_str(" hide"),
    }
}

fn walked(alloc: Global, program: &Program) -> Result<String, AllocError> {
    let mut out = String::new(alloc);
    let mut walk = Walk::of_items(alloc, program.items())?;
    for _ in 0..u64::MAX {
        let Some(visit) = walk.next()? else {
            break;
        };
        put_visit(alloc, &mut out, visit)?;
    }
    Ok(out)
}

/// What a walk over the program meets, or a word where the text is none.
pub(crate) fn visits_of(alloc: Global, text: &[u8]) -> Result<String, AllocError> {
    if text.len() > 1000 {
        return String::from_str(alloc, " too long");
    }
    let Ok(tokens) = lex(alloc, text, TextKind::Program) else {
        return String::from_str(alloc, " no tokens");
    };
    let mut names = NameTable::new(alloc)?;
    match parse_program(alloc, &tokens, text, &mut names) {
        Ok(program) => walked(alloc, &program),
        Err(_) => String::from_str(alloc, " no program"),
    }
}
