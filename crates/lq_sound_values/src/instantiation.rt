//! A type with types for its type variables has the inhabitants of the type at their closed types: definitions and laws.

mod laws;

pub use laws::{instances_fit, instances_stay};
