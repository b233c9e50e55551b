//! What is wrong with measures and qualifiers: names without a definition, wrong numbers, equations that follow no structure, and shapes
//! that don't fit.

mod complaint;
mod datatypes;
mod equations;
mod laws;
mod predicate;
mod qualifiers;
mod shape;
mod table;

pub use complaint::{Cause, SortComplaint};
pub use equations::first_measure_complaint;
pub use laws::least_is_least;
pub use qualifiers::first_qualifier_complaint;
