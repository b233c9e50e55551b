//! That the implications of a subtyping speak of bound names: laws.

mod laws;

pub use laws::{hypotheses_are_over, splits_are_bound};
