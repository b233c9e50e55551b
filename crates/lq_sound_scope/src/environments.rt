//! That templates in scope are over the environments of soundness: laws.

mod laws;

pub use laws::{recursions_are_over_environments, templates_are_over_environments};
