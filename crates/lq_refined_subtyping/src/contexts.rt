//! Environments in which names have types, and the implications between the tops of two types in one.

mod comparing;
mod naming;

pub use comparing::tops;
pub use naming::{TypedName, guarded, named};
