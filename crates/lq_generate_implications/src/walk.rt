//! The walk over a program that makes what it is asked for.

mod blocks;
mod choosing;
mod entering;
mod finding;
mod leaves;
mod program;
mod walk;

pub use program::ask_all;
pub use walk::Walk;
