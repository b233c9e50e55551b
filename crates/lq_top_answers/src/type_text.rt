//! How refined types under an assignment are written.

mod entries;
mod laws;
mod letters;
mod predicates;
mod taking;
mod tree;
mod types;
mod writing;

pub use laws::examples;
pub use taking::shown;
pub use tree::{Entry, Shown};
pub use types::{push_line, push_type};
pub use writing::{Parameters, Writing};
