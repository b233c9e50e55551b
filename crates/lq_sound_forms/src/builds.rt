//! Constructors run well: definitions and laws.

mod laws;

pub use laws::builds_run;
