//! All rows: a tableau that decides them by pivots, after Dutertre and de Moura (2006).
#![tactic(auto)]

mod basis;
mod conflict;
mod error;
mod fractions;
mod gather;
mod laws;
mod limits;
mod line;
mod merge;
mod parts;
mod reading;
mod row;
mod tableau;
mod whole;

pub use laws::spent_limits_are_small;
pub use tableau::Tableau;
