//! What implications are made of: their literals with the predicates they come from, the first that can't be
//! gathered, flags, objects and applications.

mod copying;
mod laws;
mod leaf;
mod pairs;
mod parts;
mod ungathered;

pub use copying::{copy_implication, copy_row};
pub use laws::sources_have_the_literals;
pub use parts::{applications, flags, objects};
pub use ungathered::{first_past, first_past_application};
