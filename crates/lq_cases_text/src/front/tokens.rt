// Tokens as words: a letter for the kind, the place, and behind `=` the bytes, or behind `#` the value of a number.
ghost use Rattle.std.specs.Prelude.{◌≤◌, length};
ghost use Rattle.lq_text_lexer.specs.declared.limits.TheConstants.{TEXT_LIMIT};

use lq_base_names::{Place, TextKind};
use lq_text_lexer::{LexError, Token, TokenKind, Tokens, lex};
use std::alloc::{AllocError, Global};

fn letter(kind: TokenKind) -> &'static str {
    match kind {
        TokenKind::Lower => "l",
        TokenKind::Upper => "u",
        TokenKind::TypeVar => "t",
        TokenKind::Number(_) => "n",
        TokenKind::Keyword(_) => "k",
        TokenKind::Symbol => "s",
    }
}

// A word and a place.
pub(crate) fn at_place(alloc: Global, word: &str, place: Place) -> Result<String, AllocError> {
    let line = place.line;
    let column = place.column;
    format!(in alloc; "{word} {line}:{column}")
}

// Why a text has no tokens.
pub(crate) fn fault(alloc: Global, error: LexError) -> Result<String, AllocError> {
    match error {
        LexError::BadByte(place) => at_place(alloc, "bad", place),
        LexError::OpenComment(place) => at_place(alloc, "open", place),
        LexError::LiteralPast(place) => at_place(alloc, "past", place),
        LexError::Memory => Err(AllocError),
    }
}

fn put_token(out: &mut String, text: &[u8], token: &Token) -> Result<(), AllocError> {
    let letter = letter(token.kind);
    let line = token.place.line;
    let column = token.place.column;
    write!(out, "{letter}{line}:{column}")?;
    if let TokenKind::Number(value) = token.kind {
        write!(out, "#{value}")?;
    } else {
        out.push_str("=")?;
        for byte in text.get(token.start..token.end).unwrap_or(b"") {
            out.push(char::from(*byte))?;
        }
    }
    Ok(())
}

fn all_tokens(alloc: Global, text: &[u8], tokens: &Tokens) -> Result<String, AllocError> {
    let mut out = String::new(alloc);
    for at in 0..tokens.len() {
        if let Some(token) = tokens.get(at) {
            if at > 0 {
                out.push_str(" ")?;
            }
            put_token(&mut out, text, token)?;
        }
    }
    Ok(out)
}

// The tokens of a text, or its first fault.
pub(crate) fn tokens_of(alloc: Global, text: &[u8], kind: TextKind) -> Result<String, AllocError>
    requires { length text.now ≤ TEXT_LIMIT }
{
    match lex(alloc, text, kind) {
        Ok(tokens) => all_tokens(alloc, text, &tokens),
        Err(error) => fault(alloc, error),
    }
}

const fn kind_word(kind: TextKind) -> &'static str {
    match kind {
        TextKind::Program => "program",
        TextKind::Measures => "measures",
        TextKind::Quals => "qualifiers",
    }
}

// The place behind a text, and whether it has tokens.
pub(crate) fn end_of(alloc: Global, text: &[u8], kind: TextKind) -> Result<String, AllocError>
    requires { length text.now ≤ TEXT_LIMIT }
{
    let tokens = match lex(alloc, text, kind) {
        Ok(tokens) => tokens,
        Err(error) => return fault(alloc, error),
    };
    let end = tokens.end_place();
    let place = at_place(alloc, kind_word(end.text), end)?;
    let held = if tokens.is_empty() { "no" } else { "some" };
    format!(in alloc; "{place} with {held} tokens")
}
