//! Programs whose names are bound: each use has the binder of its definition, and primitives are nodes of their own.

mod datatype;
mod scoped;

pub use datatype::{ConstructorType, DataType};
pub use scoped::Scoped;
