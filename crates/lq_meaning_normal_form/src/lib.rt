//! The normal form of programs: that it keeps every outcome and every type, and what it binds.
#![tactic(auto)]

pub mod binders;
pub mod outcomes;
pub mod types;
