//! Templates, the points of programs where the typing rules take them, and programs with their points.
#![tactic(auto)]

pub mod points;
pub mod programs;
pub mod templates;
