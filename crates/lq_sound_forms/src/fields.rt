//! What the fields of a constructor inhabit: definitions and laws.

mod laws;

pub use laws::fields_fit;
