// Tokens.
ghost use Rattle.std.specs.Prelude.{◌≡◌, length, slice_get, IsTrue, ◌↔◌, []};
ghost use Rattle.std.specs.Option.{option_copied};

use crate::keyword::Keyword;
use lq_base_names::Place;

/// The kind of a token. Which name or symbol it is, its bytes say.
#[derive(Clone, Copy, Debug, PartialEq, Eq)]
pub enum TokenKind {
    /// A name that begins with a small letter or an underscore.
    Lower,
    /// A name that begins with a capital letter.
    Upper,
    /// A quote and a lower name.
    TypeVar,
    /// A decimal literal, with its value.
    Number(u128),
    /// A word that is no name, also one that no rule of the grammar uses.
    Keyword(Keyword),
    /// Punctuation or an operator; also the underscore alone.
    Symbol,
}

/// A token: the bytes of its text from `start` to before `end`.
#[derive(Clone, Copy, Debug, PartialEq, Eq)]
pub struct Token {
    pub kind: TokenKind,
    pub start: usize,
    pub end: usize,
    pub place: Place,
}

/// The tokens of a text, as `lex` gives them.
#[derive(Drop)]
pub struct Tokens {
    pub(crate) items: Vec<Token>,
    pub(crate) end: Place,
}

impl Tokens {
    ghost use Rattle.lq_text_lexer.specs.Reading.{tokens_of, end_place_of};

    /// How many there are.
    pub fn len(&self) -> usize
        ensures { result ≡ length (tokens_of self.now) }
    {
        self.items.len()
    }

    /// Whether there are none.
    pub fn is_empty(&self) -> bool
        ensures { IsTrue result ↔ (tokens_of self.now ≡ []) }
    {
        self.items.is_empty()
    }

    /// The token at this position, counted from 0.
    pub fn get(&self, at: usize) -> Option<&Token>
        ensures { option_copied result ≡ slice_get (tokens_of self.now) at }
    {
        self.items.get(at)
    }

    /// The place after the last byte of the text.
    pub fn end_place(&self) -> Place
        ensures { result ≡ end_place_of self.now }
    {
        self.end
    }
}
