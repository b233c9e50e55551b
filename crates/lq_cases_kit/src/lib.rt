//! What programs that answer cases share: terms and predicates as words, each operator behind its arguments, fractions, and whether a
//! point refutes an implication.
#![tactic(auto)]

mod error;
mod meeting;
mod printing;
mod words;

pub use error::{CheckError, WordError};
pub use meeting::refutes;
pub use printing::{push_fraction, push_past, push_pred, push_symbol, push_term};
pub use words::Stacks;
