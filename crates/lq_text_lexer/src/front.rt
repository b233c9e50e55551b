// What stands at the front of the rest of a text.
ghost use Rattle.std.specs.Prelude.{◌≡◌, ◌+◌, ◌≤◌, ◌<◌, SomeIff, length, drop};
ghost use Rattle.lq_text_lexer.specs.Front.{front_of, word_kind, word_front, quote_front, number_front, symbol_front, token_front, number_from, is_type_variable, is_opening, begins_letter, front_len, HasBytes, FitsIn};
ghost use Rattle.lq_text_lexer.specs.Keywords.{keyword_of};
ghost use Rattle.lq_text_lexer.specs.declared.limits.TheConstants.{TEXT_LIMIT};
ghost use Rattle.lq_base_names.specs.declared.limits.TheConstants.{LITERAL_LIMIT};

use crate::bytes::{
    begins_lower, begins_upper, is_blank, is_digit, is_letter, name_len, number_len,
};
use crate::comments::rest_from;
use crate::keyword::keyword_of;
use crate::symbol::symbol_len;
use crate::token::TokenKind;
use lq_base_names::{LITERAL_LIMIT, TextKind};

#[derive(Clone, Copy)]
pub(crate) enum Front {
    End,
    Blank,
    Comment,
    // The kind and the length of the longest token.
    Token(TokenKind, usize),
    // So many bytes further stands a byte of no token.
    BadByte(usize),
    LiteralPast,
}

// A lower name or a keyword.
fn word_kind(kind: TextKind, word: &[u8]) -> TokenKind
    ensures { result ≡ word_kind (keyword_of kind word.now) }
{
    match keyword_of(kind, word) {
        Some(keyword) => TokenKind::Keyword(keyword),
        None => TokenKind::Lower,
    }
}

#[tactic(auto, unfolding(crate::specs::Front::word_front))]
fn word_front(kind: TextKind, word: &[u8]) -> Front
    ensures { result ≡ word_front kind word.now }
{
    if word == b"_".as_slice() {
        Front::Token(TokenKind::Symbol, 1)
    } else {
        Front::Token(word_kind(kind, word), word.len())
    }
}

fn is_type_variable(text: &[u8]) -> bool
    ensures { result ≡ is_type_variable text.now }
{
    match text {
        [] => false,
        [b, ..] => {
            if &text[..name_len(text)] == b"_".as_slice() {
                false
            } else {
                begins_lower(*b)
            }
        }
    }
}

#[tactic(auto, unfolding(crate::specs::Front::quote_front))]
fn quote_front(text: &[u8]) -> Front
    requires { length text.now < TEXT_LIMIT }
    ensures { result ≡ quote_front text.now }
{
    if is_type_variable(text) {
        Front::Token(TokenKind::TypeVar, 1 + name_len(text))
    } else {
        Front::BadByte(0)
    }
}

// The value of the digits, where it is at most the limit.
fn value_of(digits: &[u8]) -> Option<u128>
    ensures { SomeIff result (number_from 0 digits.now ≤ LITERAL_LIMIT) (number_from 0 digits.now) }
{
    let mut value: u128 = 0;
    for b in digits {
        if *b != b'_' {
            let digit = u128::from(b.saturating_sub(b'0'));
            if value > (LITERAL_LIMIT - digit) / 10 {
                return None;
            }
            value = value * 10 + digit;
        }
    }
    Some(value)
}

fn begins_letter(text: &[u8]) -> bool
    ensures { result ≡ begins_letter text.now }
{
    match text {
        [] => false,
        [b, ..] => is_letter(*b),
    }
}

#[tactic(auto, unfolding(crate::specs::Front::number_front))]
fn number_front(text: &[u8]) -> Front
    ensures { result ≡ number_front text.now }
{
    let len = number_len(text);
    let (digits, behind) = text.split_at(len);
    match value_of(digits) {
        None => Front::LiteralPast,
        Some(value) => {
            if begins_letter(behind) {
                Front::BadByte(len)
            } else {
                Front::Token(TokenKind::Number(value), len)
            }
        }
    }
}

#[tactic(auto, unfolding(crate::specs::Front::symbol_front))]
fn symbol_front(text: &[u8]) -> Front
    ensures { result ≡ symbol_front text.now }
{
    let len = symbol_len(text);
    if len == 0 {
        Front::BadByte(0)
    } else {
        Front::Token(TokenKind::Symbol, len)
    }
}

fn is_opening(text: &[u8]) -> bool
    ensures { result ≡ is_opening text.now }
{
    matches!(text, [b'(', b'*', ..])
}

// What stands at this offset.
pub(crate) fn front_at(kind: TextKind, text: &[u8], at: usize) -> Front
    requires small { length text.now ≤ TEXT_LIMIT }
    requires inside { at ≤ length text.now }
    ensures front { result ≡ front_of kind (drop at text.now) }
    ensures within { at + front_len result ≤ length text.now }
    ensures some { HasBytes result }
{
    front_of(kind, rest_from(text, at))
}

fn front_of(kind: TextKind, text: &[u8]) -> Front
    requires { length text.now ≤ TEXT_LIMIT }
    ensures front { result ≡ front_of kind text.now }
    ensures fits { FitsIn result text.now }
{
    classified(kind, text)
}

#[tactic(auto, unfolding(crate::specs::Front::front_of, crate::specs::Front::token_front))]
fn classified(kind: TextKind, text: &[u8]) -> Front
    requires { length text.now ≤ TEXT_LIMIT }
    ensures { result ≡ front_of kind text.now }
{
    match text {
        [] => Front::End,
        [b, rest @ ..] => {
            if is_blank(*b) {
                Front::Blank
            } else if is_opening(text) {
                Front::Comment
            } else if begins_lower(*b) {
                word_front(kind, &text[..name_len(text)])
            } else if begins_upper(*b) {
                Front::Token(TokenKind::Upper, name_len(text))
            } else if *b == b'\'' {
                quote_front(rest)
            } else if is_digit(*b) {
                number_front(text)
            } else {
                symbol_front(text)
            }
        }
    }
}
