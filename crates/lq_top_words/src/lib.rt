//! The words of the command line, the command that they are, the texts that it is about, and sample programs.
#![tactic(auto)]

pub mod command;
pub mod inputs;
pub mod sample;
