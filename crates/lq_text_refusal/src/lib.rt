//! Refusals of texts: their codes, their names, and the lines that report them.
#![tactic(auto)]

mod line;
mod refused;

pub use line::{push_place, refusal_text};
pub use refused::Refused;
