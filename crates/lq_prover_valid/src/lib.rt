//! Whether an implication is valid: with a tree that proves it, or with a point at which it fails.
#![tactic(auto)]

mod answer;
mod names;
mod point;
mod proving;
mod readings;
mod standing;

pub use answer::Answer;
pub use names::object_table;
pub use proving::{prove, valid};
pub use standing::{Asked, Ended, Standing};
