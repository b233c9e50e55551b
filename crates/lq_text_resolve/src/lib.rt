//! Programs with their names bound, or why they are refused.
#![tactic(auto)]

pub mod binding;
pub mod resolution;
