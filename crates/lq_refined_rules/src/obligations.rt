//! What a program is asked for, before subtypings are split into implications: definitions and laws.

mod laws;

pub use laws::{obligations_are_implications, obligations_are_shaped};
