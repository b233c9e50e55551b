//! Lists of implications between parts of refinements, each in an environment of hypotheses that it shares with others.

mod hypotheses;
mod implication;
mod list;

pub use hypotheses::Hypotheses;
pub use implication::{Implication, Reason};
pub use list::{IMPLICATION_LIMIT, Implications};
