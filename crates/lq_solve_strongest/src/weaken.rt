//! The strongest solution of implications over instances by the prover, or the first demand that fails.

mod asking;
mod counts;
mod gathering;
mod laws;
mod refuting;
mod solving;
mod unknowns;

pub use gathering::first_ungathered;
pub use laws::some_instances_gather;
pub use lq_solve_fixpoint::weakening::{Chosen, SolveError, Solved};
pub use solving::solve;
