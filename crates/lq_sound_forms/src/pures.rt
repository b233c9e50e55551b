//! What normal trees run as, and when pure expressions run to values of their types: definitions and laws.

mod laws;

pub use laws::pures_run;
