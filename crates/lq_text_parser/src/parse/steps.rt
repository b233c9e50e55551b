// The reading of a text, with places.
ghost use Rattle.std.specs.Prelude.{◌≡◌, ◌+◌, ◌*◌, ◌≤◌, length, IfOk, Err};
ghost use Rattle.lq_text_lexer.specs.Reading.{tokens_of, end_place_of};
ghost use Rattle.lq_base_names.specs.declared.place.Place.{Place};
ghost use Rattle.lq_text_parser.specs.Parse.Texts.{place_of, IsText, IsSyntax, IsTooDeep};
ghost use Rattle.lq_text_parser.specs.declared.parse.error.ParseError.TheVariants.{Syntax, TooDeep};

use crate::parse::error::ParseError;
use crate::parse::terminals::kinds_of;
use lq_base_names::{LEVEL_LIMIT, Place, TextKind};
use lq_text_grammar::{Event, ReadError, read};
use lq_text_lexer::Tokens;
use std::alloc::Global;

// The place of this token, or the end of the text.
fn place_of(tokens: &Tokens, at: usize) -> Place
    ensures { result ≡ place_of (tokens_of tokens.now) (end_place_of tokens.now) at }
{
    match tokens.get(at) {
        Some(token) => token.place,
        None => tokens.end_place(),
    }
}

// The steps of the reading of these tokens as a text.
pub(crate) fn steps_of(
    alloc: Global,
    kind: TextKind,
    text: &[u8],
    tokens: &Tokens,
) -> Result<Vec<Event>, ParseError>
    ensures ok { IfOk result (λ es. IsText kind text.now (tokens_of tokens.now) es.items) }
    ensures syntax { (place : Place) → result ≡ Err (Syntax place)
        → IsSyntax kind text.now (tokens_of tokens.now) (end_place_of tokens.now) place }
    ensures too_deep { (place : Place) → result ≡ Err (TooDeep place)
        → IsTooDeep kind text.now (tokens_of tokens.now) (end_place_of tokens.now) place }
    ensures bounded { IfOk result (λ es. length es.items ≤ 80 * length (tokens_of tokens.now) + 43) }
{
    let kinds = kinds_of(alloc, text, tokens)?;
    match read(alloc, kind, &kinds, LEVEL_LIMIT) {
        Ok(events) => Ok(events),
        Err(ReadError::Syntax(at)) => Err(ParseError::Syntax(place_of(tokens, at))),
        Err(ReadError::TooDeep(at)) => Err(ParseError::TooDeep(place_of(tokens, at))),
        Err(ReadError::Memory) => Err(ParseError::Memory),
    }
}
