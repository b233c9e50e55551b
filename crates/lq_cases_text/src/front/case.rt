// A case: a question, mostly a kind of text, and a text.
use crate::front::names::numbers_of;
use crate::front::notation::written;
use crate::front::readings::reading;
use crate::front::tokens::{end_of, tokens_of};
use crate::front::trees::{check, copies_of, free_names_of, tree_of};
use lq_base_names::TextKind;
use lq_text_lexer::TEXT_LIMIT;
use std::alloc::{AllocError, Global};

// The first word, and what stands behind the space after it.
fn first_word(text: &str) -> (&str, &str) {
    match text.split_once(' ') {
        Some((word, rest)) => (word, rest),
        None => (text, ""),
    }
}

fn kind_of(word: &str) -> Option<TextKind> {
    match word {
        "program" => Some(TextKind::Program),
        "measures" => Some(TextKind::Measures),
        "qualifiers" => Some(TextKind::Quals),
        _ => None,
    }
}

// The answer to a case.
pub(crate) fn answer(alloc: Global, line: &str) -> Result<String, AllocError> {
    let (question, rest) = first_word(line);
    if question == "names" {
        return numbers_of(alloc, rest);
    }
    let (kind, rest) = first_word(rest);
    let Some(kind) = kind_of(kind) else {
        return String::from_str(alloc, "no kind of text");
    };
    if question == "reading" {
        let (limit, words) = first_word(rest);
        return reading(alloc, kind, limit, words);
    }
    let text = written(alloc, rest)?;
    if text.len() > TEXT_LIMIT {
        return String::from_str(alloc, "too long");
    }
    match question {
        "tokens" => tokens_of(alloc, &text, kind),
        "end" => end_of(alloc, &text, kind),
        "check" => check(alloc, &text, kind),
        "tree" => tree_of(alloc, &text, kind),
        "copies" => copies_of(alloc, &text),
        "free" => free_names_of(alloc, &text),
        _ => String::from_str(alloc, "no question"),
    }
}
