//! The three grammars read with places, and which trees the tokens of a text stand for.
#![tactic(auto)]

pub mod parse;
pub mod syntax;
