//! What is put for the names of a predicate and of parts of refinements: all at once, one after another, and for the names of a scope alone.

mod atoms;
mod composing;
mod joining;
mod leaving;
mod listed;
mod parts;
mod places;
mod restricting;
mod rows;
mod runs;
mod scopes;
mod seen;
mod substituting;
mod substs;
mod swaps;
mod tables;

pub use atoms::Atom;
pub use composing::after;
pub use parts::{Part, Parts};
pub use places::Inner;
pub use restricting::restricted;
pub use scopes::Scopes;
pub use substituting::{substitute, substitute_atom, substitute_term};
pub use substs::Subst;
pub use swaps::Swap;
