//! Programs brought to their normal form, in one pass.

mod bodies;
mod definitions;
mod frames;
mod laws;
mod matches;
mod nested;
mod operands;
mod parts;
mod program;
mod rows;
mod running;

pub use laws::programs_are_one_pass;
pub use program::{NormalProgram, normal};
