//! One path of a search: facts, objects, and what the engines know of them.
#![tactic(auto)]

pub mod equations;
pub mod objects;
pub mod state;
