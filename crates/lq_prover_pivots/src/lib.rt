//! Chains of pivots by the rule of least numbers, their entries by Cramer's rule, and their work: definitions and laws.
#![tactic(auto)]

pub mod cramer;
pub mod pivots;
pub mod work;
