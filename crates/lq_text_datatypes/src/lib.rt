//! The datatypes that a program defines, by the types of their constructors' fields.
#![tactic(auto)]

mod datatypes;
mod simple;
mod stack;

pub use datatypes::datatypes_of;
pub use simple::written;
