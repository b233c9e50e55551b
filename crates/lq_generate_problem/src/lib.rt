//! What is to be solved for a typed program: its implications, with the templates of its points and the instances of their unknowns.
#![tactic(auto)]

mod error;
mod found;
mod made;
mod problem;

pub use error::ProblemError;
pub use made::{Made, templates_of};
pub use problem::{Problem, pose};
