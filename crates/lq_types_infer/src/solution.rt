//! The types that solve a system, as a table.

mod classes;
mod heads;
mod slots;

pub use slots::{SlotTypes, table_of};
