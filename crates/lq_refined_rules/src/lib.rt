//! The typing rules with refinements, what a program is asked for, and its implications: definitions and laws.
#![tactic(auto)]

pub mod checks;
pub mod obligations;
