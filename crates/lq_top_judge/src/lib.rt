//! The judgement on three texts: what it is, the calls that give it, and its laws.
#![tactic(auto)]

pub mod judgement;
pub mod verdict;
