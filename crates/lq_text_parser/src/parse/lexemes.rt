// Tokens as actions see them.
ghost use Rattle.std.specs.Prelude.{◌≡◌, ◌≤◌, ◌<◌, ◌+◌, ◌-◌, ◌^◌, length, take, map, slice_get, Some, IfOk, OnOk, OnErr};
ghost use Rattle.std.specs.Str.{IsAscii};
ghost use Rattle.lq_text_lexer.specs.Reading.{IsTokens, tokens_of};
ghost use Rattle.lq_base_names.specs.NameTable.{IsNameTable, with_text};
ghost use Rattle.lq_text_parser.specs.Parse.Lexemes.{HasNameBytes, ContentFits};
ghost use Rattle.lq_text_parser.specs.Parse.Trees.{lexeme_of, with_name, with_names};
ghost use Rattle.lq_text_actions.specs.Views.{content_view, lexeme_view};
ghost use Rattle.lq_text_lexer.specs.declared.limits.TheConstants.{TEXT_LIMIT};

use crate::parse::terminals::bytes_of;
use lq_base_names::{Name, NameTable, TextKind};
use lq_text_actions::{Content, Lexeme};
use lq_text_lexer::{TokenKind, Tokens};
use std::alloc::{AllocError, Global};
use std::str;

// The number of a name, which is added to the table.
fn number_of(word: &[u8], names: &mut NameTable) -> Result<Name, AllocError>
    requires room { length names.old < 2 ^ 32 - 1 }
    requires ascii { IsAscii word.now }
    ensures names { OnOk result (names.new ≡ with_text names.old word.now) }
    ensures number { IfOk result (λ n. slice_get names.new n.0 ≡ Some word.now) }
    ensures err { OnErr result (names.new ≡ names.old) }
    ensures table { IsNameTable names.new }
{
    let Ok(word) = str::from_utf8(word) else {
        unreachable!()
    };
    names.intern(word)
}

// What a token has for actions. A name is added to the table.
fn content_of(kind: TokenKind, word: &[u8], names: &mut NameTable) -> Result<Content, AllocError>
    requires room { length names.old < 2 ^ 32 - 1 }
    requires ascii { HasNameBytes kind word.now }
    ensures names { OnOk result (names.new ≡ with_name kind word.now names.old) }
    ensures content { IfOk result (λ c. ContentFits names.new kind word.now (content_view c)) }
    ensures err { OnErr result (names.new ≡ names.old) }
    ensures table { IsNameTable names.new }
{
    let _len = names.len(); // what it promises: the table is one
    match kind {
        TokenKind::Lower => Ok(Content::Name(number_of(word, names)?)),
        TokenKind::Upper => Ok(Content::Name(number_of(word, names)?)),
        TokenKind::TypeVar => Ok(Content::Name(number_of(word, names)?)),
        TokenKind::Number(value) => Ok(Content::Number(value)),
        TokenKind::Keyword(_) => Ok(Content::Neither),
        TokenKind::Symbol => Ok(Content::Neither),
    }
}

// The tokens of this text as actions see them. Their names are added to the table.
pub(crate) fn lexemes_of(
    alloc: Global,
    kind: TextKind,
    text: &[u8],
    tokens: &Tokens,
    names: &mut NameTable,
) -> Result<Vec<Lexeme>, AllocError>
    requires small { length text.now ≤ TEXT_LIMIT }
    requires tokens { IsTokens kind text.now (tokens_of tokens.now) }
    requires room { length names.old ≤ 2 ^ 31 }
    ensures ok { IfOk result (λ ls. map lexeme_view ls.items ≡ map (lexeme_of names.new text.now)
        (tokens_of tokens.now)) }
    ensures names { OnOk result (names.new ≡ with_names text.now (tokens_of tokens.now) names.old) }
    ensures kept { take (length names.old) names.new ≡ names.old }
    ensures added { length names.new ≤ length names.old + length (tokens_of tokens.now) }
    ensures table { IsNameTable names.new }
{
    let mut lexemes = Vec::new(alloc);
    let mut at = 0;
    let _len = names.len(); // what it promises: the table is one
    while let Some(token) = tokens.get(at) {
        let content = content_of(token.kind, bytes_of(text, token), names)?;
        lexemes.push(Lexeme {
            place: token.place,
            content,
        })?;
        at += 1;
    }
    Ok(lexemes)
}
