//! Arrays run well: definitions and laws.

mod laws;

pub use laws::arrays_run;
