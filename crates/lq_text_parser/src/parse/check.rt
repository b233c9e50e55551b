// Whether tokens are a text.
ghost use Rattle.std.specs.Prelude.{◌≡◌, IfOk, Err, List};
ghost use Rattle.lq_text_grammar.specs.declared.symbol.Event.{Event};
ghost use Rattle.lq_text_lexer.specs.Reading.{tokens_of, end_place_of};
ghost use Rattle.lq_base_names.specs.declared.place.Place.{Place};
ghost use Rattle.lq_text_parser.specs.Parse.Texts.{IsText, IsSyntax, IsTooDeep};
ghost use Rattle.lq_text_parser.specs.declared.parse.error.ParseError.TheVariants.{Syntax, TooDeep};

use crate::parse::error::ParseError;
use crate::parse::steps::steps_of;
use lq_base_names::TextKind;
use lq_text_lexer::Tokens;
use std::alloc::Global;

/// Whether the tokens of this text are a program, qualifiers or measures in which no token has a level above
/// `LEVEL_LIMIT`.
pub fn check_text(
    alloc: Global,
    kind: TextKind,
    text: &[u8],
    tokens: &Tokens,
) -> Result<(), ParseError>
    ensures ok { IfOk result (λ _. (events : List Event)
        × IsText kind text.now (tokens_of tokens.now) events) }
    ensures syntax { (place : Place) → result ≡ Err (Syntax place)
        → IsSyntax kind text.now (tokens_of tokens.now) (end_place_of tokens.now) place }
    ensures too_deep { (place : Place) → result ≡ Err (TooDeep place)
        → IsTooDeep kind text.now (tokens_of tokens.now) (end_place_of tokens.now) place }
{
    steps_of(alloc, kind, text, tokens)?;
    Ok(())
}
