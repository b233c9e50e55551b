//! The values that inhabit refined types, and when the forms of a normal program run well: definitions and laws.
#![tactic(auto)]

pub mod inclusion;
pub mod inhabitants;
pub mod instantiation;
pub mod new_names;
pub mod runs;
pub mod twins;
