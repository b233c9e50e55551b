//! Each form of a normal program runs well where it checks: definitions and laws.
#![tactic(auto)]

pub mod arrays;
pub mod builds;
pub mod calls;
pub mod fields;
pub mod matches;
pub mod pures;
pub mod quiet;
pub mod quotients;
pub mod tuples;
