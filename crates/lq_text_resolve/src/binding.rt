//! Programs with their names bound: each use gets the binder of its definition, and primitives become nodes of their own.

mod binding;
mod nodes;
mod parameters;
mod pass;
mod patterns;
mod primitives;
mod program;
mod resolver;
mod values;

pub use program::{BINDER_LIMIT, Bound, bind_program};
