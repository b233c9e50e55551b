//! Paths of a search: readings that are taken as facts and choices.

mod choice;
mod literal;
mod meeting;
mod numbering;
mod taking;

pub use choice::Choice;
pub use meeting::{meets, meets_any};
pub use taking::take;
