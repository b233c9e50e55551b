//! Templates: refined types with unknowns, each with its scope and its shape.

mod laws;

pub use laws::{examples, templates_are_of_their_types, templates_number_their_unknowns};
