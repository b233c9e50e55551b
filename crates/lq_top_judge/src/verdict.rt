//! The judgement on what is to be solved for three texts: what it is, and the call that gives it.

mod counting;
mod judgement;
mod naming;
mod verdict;

pub use counting::Counts;
pub use judgement::{Judged, Judgement, Refusal};
pub use verdict::verdict_on;
