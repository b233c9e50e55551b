//! Templates of a program's points are well sorted: definitions and laws.

mod laws;

pub use laws::{points_are_sorted, program_points_are_sorted, templates_are_sorted};
