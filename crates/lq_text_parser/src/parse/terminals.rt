// Tokens as the grammars see them.
ghost use Rattle.std.specs.Prelude.{◌≡◌, IfOk};
ghost use Rattle.lq_text_grammar.specs.declared.kind.Kind.TheVariants as kind;
ghost use Rattle.lq_text_lexer.specs.Reading.{tokens_of};
ghost use Rattle.lq_text_parser.specs.Parse.Terminals.{bytes_of, kind_among, keyword_kind, symbols, terminal, kinds_of};

use lq_base_names::LITERAL_LIMIT;
use lq_text_grammar::Kind;
use lq_text_lexer::{Keyword, Token, TokenKind, Tokens};
use std::alloc::{AllocError, Global};

// The bytes of a token.
pub(crate) fn bytes_of<'a>(text: &'a [u8], token: &Token) -> &'a [u8]
    ensures { result.now ≡ bytes_of text.now token.now }
{
    let start = token.start.min(text.len());
    let rest = &text[start..];
    let len = token.end.saturating_sub(token.start).min(rest.len());
    &rest[..len]
}

fn keyword_kind(keyword: Keyword) -> Kind
    ensures { result ≡ keyword_kind keyword }
{
    match keyword {
        Keyword::Assert => Kind::Assert,
        Keyword::Begin => Kind::Begin,
        Keyword::Else => Kind::Else,
        Keyword::End => Kind::End,
        Keyword::False => Kind::False,
        Keyword::Fun => Kind::Fun,
        Keyword::If => Kind::If,
        Keyword::In => Kind::In,
        Keyword::Let => Kind::Let,
        Keyword::Match => Kind::Match,
        Keyword::Measure => Kind::Measure,
        Keyword::Mod => Kind::Mod,
        Keyword::Not => Kind::Not,
        Keyword::Of => Kind::Of,
        Keyword::Qualif => Kind::Qualif,
        Keyword::Rec => Kind::Rec,
        Keyword::Then => Kind::Then,
        Keyword::True => Kind::True,
        Keyword::Type => Kind::Type,
        Keyword::With => Kind::With,
        Keyword::Unused => Kind::Reserved,
    }
}

fn symbol_kind(word: &[u8]) -> Kind
    ensures { result ≡ kind_among symbols kind.Reserved word.now }
{
    match word {
        b"<=>" => Kind::Equivalence,
        b";;" => Kind::DoubleSemicolon,
        b"->" => Kind::Arrow,
        b"<-" => Kind::LeftArrow,
        b"::" => Kind::DoubleColon,
        b"<=" => Kind::LessEqual,
        b">=" => Kind::GreaterEqual,
        b"<>" => Kind::NotEqual,
        b"&&" => Kind::DoubleAmpersand,
        b"||" => Kind::DoubleBar,
        b".(" => Kind::OpenIndex,
        b"_" => Kind::Underscore,
        b"(" => Kind::Open,
        b")" => Kind::Close,
        b"[" => Kind::OpenBracket,
        b"]" => Kind::CloseBracket,
        b"," => Kind::Comma,
        b";" => Kind::Semicolon,
        b":" => Kind::Colon,
        b"|" => Kind::Bar,
        b"=" => Kind::Equal,
        b"<" => Kind::Less,
        b">" => Kind::Greater,
        b"+" => Kind::Plus,
        b"-" => Kind::Minus,
        b"*" => Kind::Star,
        b"/" => Kind::Slash,
        b"." => Kind::Dot,
        _ => Kind::Reserved,
    }
}

fn terminal(kind: TokenKind, word: &[u8]) -> Kind
    ensures { result ≡ terminal kind word.now }
{
    match kind {
        TokenKind::Lower => Kind::LowerName,
        TokenKind::Upper => Kind::UpperName,
        TokenKind::TypeVar => Kind::TypeVariable,
        TokenKind::Number(value) => {
            if value < LITERAL_LIMIT {
                Kind::Number
            } else {
                Kind::LimitNumber
            }
        }
        TokenKind::Keyword(keyword) => keyword_kind(keyword),
        TokenKind::Symbol => symbol_kind(word),
    }
}

pub(crate) fn kinds_of(alloc: Global, text: &[u8], tokens: &Tokens) -> Result<Vec<Kind>, AllocError>
    ensures { IfOk result (λ ks. ks.items ≡ kinds_of text.now (tokens_of tokens.now)) }
{
    let mut kinds = Vec::new(alloc);
    let mut at = 0;
    while let Some(token) = tokens.get(at) {
        kinds.push(terminal(token.kind, bytes_of(text, token)))?;
        at += 1;
    }
    Ok(kinds)
}
