//! Whether all implications are known to be gatherable, all instances of their unknowns in place.

mod environments;
mod fitting;
mod parts;

pub use fitting::all_fit;
