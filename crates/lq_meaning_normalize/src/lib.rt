//! Programs brought to their normal form, in one pass, and the names that are made in it.
#![tactic(auto)]

pub mod made_names;
pub mod normalize;
pub mod pass;
