//! Refined types and their operations: definitions and laws.

mod laws;

pub use laws::{chains_of_substitutions, simple_types_are_kept};
