//! Implications that are well sorted: definitions and laws.

mod laws;

pub use laws::{implications_are_sorted, predicates_are_sorted};
