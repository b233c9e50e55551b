//! The walk over a program that makes its implications.
#![tactic(auto)]

pub mod generate;
pub mod obligations;
pub mod walk;
