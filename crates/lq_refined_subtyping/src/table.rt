//! Refined types in a table in which each is one level over earlier ones, or something that is done to an earlier one: so what types share is
//! held once, and what is done to a long type is done where it is looked at.

mod changes;
mod exposing;
mod forms;
mod operations;
mod renumbering;
mod table;
mod unfolding;

pub use changes::Change;
pub use forms::{Cell, Form, Kind, Matrix, Place, RefinedNode};
pub use table::RefinedTypes;
pub use unfolding::{Field, Unfolded};
