//! The datatypes of a program as the typing rules need them: their constructors, the equations of these, and the types of their fields.
#![tactic(auto)]

mod building;
mod plain;

pub use building::{Datatypes, declare};
