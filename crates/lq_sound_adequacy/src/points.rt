//! That the templates of points are subtypes of themselves: laws.

mod laws;

pub use laws::{templates_are_subtypes_of_themselves, templates_have_own_places};
