//! Weakening: the greatest selection of instances that makes all flows valid, by a worklist, whoever says which implications are valid.

mod chosen;
mod error;
mod judge;
mod removing;
mod solving;
mod span;
mod stepping;
mod waking;

pub use chosen::Chosen;
pub use error::SolveError;
pub use judge::{Asked, Failure, Judge};
pub use solving::{Solved, solve};
pub use span::Span;
