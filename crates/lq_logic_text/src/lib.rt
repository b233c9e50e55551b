//! How names, terms and predicates are written.
#![tactic(auto)]

mod calling;
mod predicates;
mod terms;

pub use calling::{Calling, push_symbol};
pub use predicates::push_pred;
pub use terms::{push_term, push_whole};
