//! What implications are made of, and the trees that prove them.
#![tactic(auto)]

pub mod literals;
pub mod trees;
