//! Programs whose needs can be read off, and that check, are safe: definitions and laws.

mod laws;

pub use laws::{data_example_is_plain, plain_programs_are_safe};
