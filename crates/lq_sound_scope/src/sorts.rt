//! Predicates, parts and types that are well sorted: definitions and laws.

mod laws;

pub use laws::{instances_speak_at_sorts, parts_are_sorted};
