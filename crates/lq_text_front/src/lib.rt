//! Three texts, a program, measures and qualifiers, from their bytes to these with their names bound, or why they are refused.
#![tactic(auto)]

pub mod bytes;
pub mod texts;
pub mod trees;
