//! Names that are bound, and the scope that is visible at a node, for normal programs with their types.

mod bound;
mod level;
mod notes;

pub use bound::Bound;
pub use notes::Notes;
