//! Subtyping of refined types: definitions and laws.

mod laws;

pub use laws::split_is_subtype;
