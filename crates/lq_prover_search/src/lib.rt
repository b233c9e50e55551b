//! The search for a point of a path, or for a tree that proves it.
#![tactic(auto)]

pub mod path;
pub mod pruning;
pub mod search;
