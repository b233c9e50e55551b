//! What the numbers of binders say of a scoped program.

mod laws;

pub use laws::{scoped_are_apart, scoped_bind_once};
