//! What lengths and measures are of the values of a program.

mod laws;

pub use laws::{equations_hold, examples, values_have_numbers};
