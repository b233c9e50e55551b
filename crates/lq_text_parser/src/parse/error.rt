// Why tokens are no text that `lq` takes.
ghost use Rattle.std.specs.Prelude.{◌≡◌};
ghost use Rattle.lq_text_parser.specs.declared.parse.error.ParseError.TheVariants.{Memory};

use lq_base_names::Place;
use std::alloc::AllocError;
use thiserror::Error;

/// Why tokens are no text that `lq` takes.
#[derive(Clone, Copy, Debug, PartialEq, Eq, Error)]
pub enum ParseError {
    /// The first token with which the tokens before it begin no text; at the end of the text where they are no whole text.
    #[error("no text goes on like this")]
    Syntax(Place),
    /// The first token that nests deeper than `LEVEL_LIMIT`.
    #[error("nested too deeply")]
    TooDeep(Place),
    #[error("out of memory")]
    Memory,
}

impl From<AllocError> for ParseError {
    ghost from_gives = { λ _ e. e ≡ Memory };

    fn from(_: AllocError) -> Self {
        ParseError::Memory
    }
}
