// The faults of a text without tokens.
ghost use Rattle.std.specs.Prelude.{◌≡◌};
ghost use Rattle.lq_text_lexer.specs.declared.error.LexError.TheVariants.{Memory};

use lq_base_names::Place;
use std::alloc::AllocFailed;
use thiserror::Error;

/// Why a text has no tokens: its first fault, in the order of the text.
#[derive(Clone, Copy, Debug, PartialEq, Eq, Error)]
pub enum LexError {
    /// A byte that belongs to no token, or a letter directly behind a number.
    #[error("a byte that no token has")]
    BadByte(Place),
    /// A comment that isn't closed: the outermost one.
    #[error("a comment without an end")]
    OpenComment(Place),
    /// A literal above `LITERAL_LIMIT`.
    #[error("a literal that is too large")]
    LiteralPast(Place),
    #[error("out of memory")]
    Memory,
}

impl<T: Drop> From<AllocFailed<T>> for LexError {
    ghost from_gives = { λ _ e. e ≡ Memory };

    fn from(_: AllocFailed<T>) -> Self {
        LexError::Memory
    }
}
