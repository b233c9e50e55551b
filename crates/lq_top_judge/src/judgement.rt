//! Judgements on a program with its measures and qualifiers: the calls that give them, and laws of them.

mod judged;
mod laws;

pub use judged::{judge, judge_counted};
pub use laws::{accepted_are_safe, one_judgement, small_are_decided};
