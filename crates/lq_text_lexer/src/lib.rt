//! The tokens of program, qualifier and measure texts.
#![tactic(auto)]

mod bytes;
mod comments;
mod cursor;
mod error;
mod front;
mod keyword;
mod lexer;
mod limits;
mod symbol;
mod token;

pub use error::LexError;
pub use keyword::Keyword;
pub use lexer::{few_tokens, lex, one_reading};
pub use limits::TEXT_LIMIT;
pub use token::{Token, TokenKind, Tokens};
