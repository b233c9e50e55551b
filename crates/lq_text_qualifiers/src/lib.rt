//! Measures and qualifiers: what is wrong with them, and what they are with their names bound.
#![tactic(auto)]

pub mod faults;
pub mod sorting;
