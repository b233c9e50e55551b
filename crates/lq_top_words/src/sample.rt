//! Sample programs: the text of one with as many functions as are asked for, its qualifiers, and the lines of its counts.

mod counts;
mod number;
mod text;

pub use counts::push_counts;
pub use text::{sample_program, sample_qualifiers};
