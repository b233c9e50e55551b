//! Parts of refinements: predicates and unknowns, what is put for their names, and assignments of instances to unknowns.

mod laws;

pub use laws::{refuted_instances, substitutions, truth_under_substitution, unions_of_selections};
