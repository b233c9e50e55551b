//! Programs whose names are bound, and walks over trees.
#![tactic(auto)]

pub mod scoped;
pub mod walk;
