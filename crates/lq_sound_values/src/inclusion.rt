//! When what inhabits one refined type inhabits another: definitions and laws.

mod laws;

pub use laws::{like_types_fit, subtypes_fit};
