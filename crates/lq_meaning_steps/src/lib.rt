//! The meaning of programs, step by step, and that a typed program never gets stuck.
#![tactic(auto)]

pub mod model;
pub mod progress;
