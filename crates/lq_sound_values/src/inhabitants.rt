//! The values that inhabit a refined type: definitions and laws.

mod laws;

pub use laws::{datatypes_fit, inhabitants_stay, numbers_below};
