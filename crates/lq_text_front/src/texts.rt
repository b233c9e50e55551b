//! A program, measures and qualifiers resolved: they are refused for the first thing that is wrong with them, or their names are bound.

mod laws;
mod texts;

pub use laws::one_resolution;
pub use texts::{ResolveError, ScopedTexts, resolve};
