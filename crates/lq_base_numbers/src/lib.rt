//! Rationals, whole numbers and their 128-bit forms, and exact fractions over `i128`.
#![tactic(auto)]

pub mod fractions;
pub mod rationals;
