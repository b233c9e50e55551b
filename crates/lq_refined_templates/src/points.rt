//! Points of normal programs: where the typing rules take templates, with their types, scopes and unknowns.

mod laws;

pub use laws::{examples, more_examples, templates_are_of_points, unknowns_are_numbered};
