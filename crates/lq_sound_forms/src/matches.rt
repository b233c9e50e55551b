//! Matches on datatypes run well: definitions and laws.

mod laws;

pub use laws::matches_run;
