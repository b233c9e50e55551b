//! The greatest selection of instances that makes all flows valid, whoever says which implications are valid, and what these ask under a selection.
#![tactic(auto)]

pub mod questions;
pub mod weakening;
