//! The texts of implications that fail or aren't decided.

mod collecting;
mod counting;
mod failures;
mod heads;
mod laws;
mod numbers;
mod ordinal;
mod point_lines;

pub use failures::{explain_text, failure_text, undecided_text};
pub use laws::{examples, failures_differ_in_values};
pub use ordinal::ordinals;
