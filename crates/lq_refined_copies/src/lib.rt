//! Unknowns of which many are copies of patterns: one copy takes constant memory.
#![tactic(auto)]

mod columns;
mod counting;
mod flattening;
mod groups;
mod marks;
mod patterns;
mod unknowns;

pub use unknowns::{Run, SharedUnknowns};
