//! Rows of linear arithmetic, what they say at a point, and the engines that decide them.
#![tactic(auto)]

mod bound;
mod engine;
mod limits;
mod row;
mod value;

pub use bound::Side;
pub use engine::{Answer, LinearEngine, LinearStop, Mark, Verdict, conflict_or_point};
pub use limits::SUM_LIMIT;
pub use row::LinearRow;
pub use value::{level_at, level_sees_its_terms, near_values_form_differences};
