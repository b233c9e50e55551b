//! Proof trees that speak of none of some facts and choices: they prove the path without these.

mod laws;
mod moving;
mod span;
mod sparing;

pub use laws::{clashes_stay, spared_facts_can_go};
pub use moving::without;
pub use span::Span;
pub use sparing::spares;
