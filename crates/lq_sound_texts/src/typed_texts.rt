//! Typed texts whose implications are valid are safe: definitions and laws.

mod laws;

pub use laws::{checked_texts_are_safe, instances_are_scoped, predeclared_are_covariant};
