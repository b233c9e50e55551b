//! Quotients and remainders run to values of their types: definitions and laws.

mod laws;

pub use laws::quotients_run;
