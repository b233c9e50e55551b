//! Programs that are read are sorted by the types of their names: definitions and laws.

mod laws;

pub use laws::{definitions_are_fixed, names_are_of_their_kinds, normal_forms_are_sorted};
