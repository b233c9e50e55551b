//! What a program is checked over, and the types and demands of its operations.
#![tactic(auto)]

pub mod basis;
pub mod operations;
