//! Refined types in memory, and the implications of subtypings between them.
#![tactic(auto)]

pub mod contexts;
pub mod split;
pub mod table;
