//! Trees seen by the shapes of their nodes, and walks over them that need no stack of calls.

mod shape;
mod walk;

pub use shape::{Leaf, One, Row, Shape, Three, Two, shape_of};
pub use walk::{Visit, Walk};
