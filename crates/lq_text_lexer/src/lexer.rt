// The lexer.
ghost use Rattle.std.specs.Prelude.{◌≡◌, ◌≤◌, ℕ, List, length, IfOk, IfErr, ◌⊎◌};
ghost use Rattle.lq_text_lexer.specs.Places.{place_at};
ghost use Rattle.lq_text_lexer.specs.Reading.{IsTokens, HasFault, FewTokens, HasOneReading, tokens_of, end_place_of};
ghost use Rattle.lq_base_names.specs.declared.place.TextKind.{TextKind};
ghost use Rattle.lq_text_lexer.specs.declared.limits.TheConstants.{TEXT_LIMIT};

use crate::comments::behind_comment;
use crate::cursor::Cursor;
use crate::error::LexError;
use crate::front::{Front, front_at};
use crate::token::{Token, Tokens};
use lq_base_names::TextKind;
use std::alloc::Global;

/// The tokens of a text. The first fault in the order of the text is the one that is answered.
pub fn lex(alloc: Global, text: &[u8], kind: TextKind) -> Result<Tokens, LexError>
    requires { length text.now ≤ TEXT_LIMIT }
    ensures found { IfOk result (λ t. IsTokens kind text.now (tokens_of t)) }
    ensures end { IfOk result (λ t. end_place_of t ≡ place_at kind text.now (length text.now)) }
    ensures refused { IfErr result (λ e. (e ≡ LexError.Memory) ⊎ HasFault kind text.now e) }
{
    let mut items = Vec::new(alloc);
    let mut cursor = Cursor::start(text);
    'turns: loop {
        match front_at(kind, text, cursor.at) {
            Front::End => {
                return Ok(Tokens {
                    items,
                    end: cursor.place(kind, text),
                });
            }
            Front::Blank => cursor = cursor.next(text),
            Front::Comment => {
                let inside = cursor.behind(text, 2);
                match behind_comment(text, inside) {
                    Some(behind) => cursor = behind,
                    None => return Err(LexError::OpenComment(cursor.place(kind, text))),
                }
            }
            Front::Token(token, len) => {
                let behind = cursor.behind(text, len);
                items.push(Token {
                    kind: token,
                    start: cursor.at,
                    end: behind.at,
                    place: cursor.place(kind, text),
                })?;
                cursor = behind;
            }
            Front::BadByte(further) => {
                let bad = cursor.behind(text, further);
                return Err(LexError::BadByte(bad.place(kind, text)));
            }
            Front::LiteralPast => {
                return Err(LexError::LiteralPast(cursor.place(kind, text)));
            }
        }
    }
}

/// Tokens and faults are determined by the text.
pub fn one_reading()
    ensures { (kind : TextKind) (text : List ℕ) → HasOneReading kind text }
{}

/// A text has at most as many tokens as bytes.
pub fn few_tokens()
    ensures { FewTokens }
{}
