//! That what a program is asked for speaks of bound names: laws.

mod laws;

pub use laws::demands_are_bound;
