//! Programs resolved: each is refused for the first thing that is wrong with its names, or its names are bound.

mod laws;
mod program;

pub use laws::{
    bound_programs_are_scoped, examples, made_resolves, one_resolution, one_tree, primitives_agree,
};
pub use program::{ResolveError, resolve};
