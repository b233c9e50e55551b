//! Classes of terms under the least congruence, with undo, over circular lists.
#![tactic(auto)]

pub mod classes;
pub mod ring;
