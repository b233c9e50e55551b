//! The equations of a program's types, with copies of generalised definitions for their uses, and their most general solution.

mod copies;
mod definitions;
mod equations;
mod laws;
mod open;
mod program;
mod solving;
mod values;

pub use equations::Inferred;
pub use laws::steps_say_the_rules;
pub use solving::{SolveError, count_nodes, solve_program};
pub use values::is_value;
