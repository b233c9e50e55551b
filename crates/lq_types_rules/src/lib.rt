//! The rules of types, node by node and visit by visit.
#![tactic(auto)]

pub mod constructors;
pub mod equations;
pub mod typings;
pub mod visits;
