//! That the templates of one type are copies of each other: laws.

mod laws;

pub use laws::{templates_complete, templates_renumber};
