//! Qualifiers of texts are sorted, and so are their instances: definitions and laws.

mod laws;

pub use laws::{instances_are_sorted, instances_are_well_sorted, qualifiers_are_sorted};
