//! Tuples run well: definitions and laws.

mod laws;

pub use laws::tuples_run;
