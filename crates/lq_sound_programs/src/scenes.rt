//! Numbers of objects by which the measures of a program are read.

mod laws;

pub use laws::measures_are_known;
