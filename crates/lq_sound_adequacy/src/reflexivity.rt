//! That each type is a subtype of itself: a law.

mod laws;

pub use laws::subtyping_is_reflexive;
