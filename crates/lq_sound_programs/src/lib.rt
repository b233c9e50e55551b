//! What checks runs well, and is safe: definitions and laws.
#![tactic(auto)]

pub mod plain;
pub mod safety;
pub mod scenes;
