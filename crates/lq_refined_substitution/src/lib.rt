//! Implications in memory: their environments, and what is put for the names of their parts.
#![tactic(auto)]

pub mod environments;
pub mod implications;
pub mod substitution;
