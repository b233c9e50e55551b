//! Equations between types that share their parts: whether they have a solution, the most general one, and the first
//! equation that fails.
#![tactic(auto)]

mod arena;
mod classes;
mod copying;
mod laws;
mod merge;
mod opens;
mod order;
mod reaching;
mod solver;
mod solving;

pub use arena::{Arena, Equation, Head, MOST_NODES, Node};
pub use laws::{
    copies_are_instances, copies_are_public, known_classes_grow, types_extend_to_copies,
    types_extend_to_uses, uses_are_instances,
};
pub use solver::{Solution, Solver};
pub use solving::{first_failing, solve};
