//! Tables of types: each type is a head over earlier types of its table, so that what types share is held once.
#![tactic(auto)]

mod type_node;
mod type_table;

pub use type_node::{TypeHead, TypeNode};
pub use type_table::TypeTable;
