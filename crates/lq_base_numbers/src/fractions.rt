//! Exact fractions over `i128`.

mod divisor;
mod frac;
mod multiple;
mod order;
mod past;

pub use divisor::{gcd, over};
pub use frac::Frac;
pub use past::{NumOp, NumberPast};
