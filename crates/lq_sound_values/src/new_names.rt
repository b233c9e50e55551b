//! Subtypings whose names are new are apart: definitions and laws.

mod laws;

pub use laws::subtypes_are_apart;
