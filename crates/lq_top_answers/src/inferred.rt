//! The types of a program's definitions as lines.

mod assigning;
mod lines;

pub use assigning::assignment_of;
pub use lines::types_text;
