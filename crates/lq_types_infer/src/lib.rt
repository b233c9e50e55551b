//! Principal types of programs, and the types by which the uses of their definitions are instantiated.
#![tactic(auto)]

pub mod annotation;
pub mod inference;
pub mod instantiation;
pub mod solution;
