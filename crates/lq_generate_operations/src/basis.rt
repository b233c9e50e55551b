//! What programs are checked over, in memory, names with their types, and the types of pure expressions.

mod atoms;
mod basis;
mod names;
mod terms;
mod types;

pub use atoms::{operands_for, pure_atom};
pub use basis::{Basis, Declared};
pub use names::Names;
pub use terms::{formula, term};
pub use types::{pure_type, pure_types, template, type_of_use};
