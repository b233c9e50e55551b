//! A refined type and its twin have the same inhabitants: definitions and laws.

mod laws;

pub use laws::twins_fit;
