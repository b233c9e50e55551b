//! When the forms of a normal program run well: definitions and laws.

mod laws;

pub use laws::forms_run;
