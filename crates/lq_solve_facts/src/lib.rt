//! Answers to implications from facts of their hypotheses that are kept from question to question.
#![tactic(auto)]

pub mod facts;
pub mod nearest;
pub mod store;
