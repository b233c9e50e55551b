//! A typed normal program read as the typing rules have it.
#![tactic(auto)]

pub mod general_names;
pub mod notes;
pub mod reading;
pub mod source_names;
pub mod visibility;
