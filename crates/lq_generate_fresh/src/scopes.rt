//! The scopes of unknowns, of which some are copies of patterns, as substitution needs them.

mod patterns;
mod runs;
mod tables;
mod whole;

pub use whole::unknown_scopes;
