//! Refined types, their parts, their operations and subtyping: definitions and laws.
#![tactic(auto)]

pub mod parts;
pub mod renumbering;
pub mod subtyping;
pub mod types;
