//! Quiet expressions, which leave the world as it is, and what many runs of one expression say of its value: definitions and laws.

mod laws;

pub use laws::{quiet_runs_keep_the_world, runs_agree, value_blocks_are_quiet};
