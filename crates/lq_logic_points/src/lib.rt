//! Points of implications: a value for each term, flag and object, and what holds there.
#![tactic(auto)]

mod agreeing;
mod conditions;
mod error;
mod evaluating;
mod holding;
mod laws;
mod pairs;
mod point;
mod values;

pub use error::PointError;
pub use holding::holds;
pub use laws::gathered_readings_can_be_evaluated;
pub use point::Point;
pub use values::PointValues;
