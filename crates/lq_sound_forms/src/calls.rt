//! Operands and calls run to values of their types: definitions and laws.

mod laws;

pub use laws::calls_run;
