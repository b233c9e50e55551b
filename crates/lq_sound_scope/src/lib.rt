//! What is read of a typed text is plain, in scope and well sorted: definitions and laws.
#![tactic(auto)]

pub mod environments;
pub mod general_uses;
pub mod matrices;
pub mod name_counts;
pub mod operations;
pub mod scalars;
pub mod scopes;
pub mod sorts;
pub mod splits;
pub mod values;
