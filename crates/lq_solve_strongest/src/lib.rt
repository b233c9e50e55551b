//! The strongest solution of implications over instances by the prover, or the first demand that fails.
#![tactic(auto)]

pub mod gathering;
pub mod selections;
pub mod small_forms;
pub mod weaken;
