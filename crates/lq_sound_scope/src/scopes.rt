//! That the templates of a program's points speak of names in scope: laws.

mod laws;

pub use laws::{scopes_are_of_unknowns, templates_are_in_scope, types_over_names_are_over_them};
