//! Assignments of instances to unknowns, and refined types under them.

mod assignment;
mod known;
mod under;

pub use assignment::Assignment;
pub use known::{known_cells, known_parts};
pub use under::{Given, types_under};
