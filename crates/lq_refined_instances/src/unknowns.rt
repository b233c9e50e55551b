// Unknowns, each with its scope and its shape.
use crate::scopes::Scopes;
use lq_text_qualifiers::sorting::Shape;

/// An unknown: the number of its scope, and the shape of the value of which it speaks.
#[derive(Clone, Copy, Debug, PartialEq, Eq)]
pub struct Unknown {
    pub scope: u64,
    pub shape: Shape,
}

/// Unknowns by their numbers, and the scopes that they share. In a scope that isn't there nothing is visible.
#[derive(Drop)]
pub struct Unknowns {
    pub scopes: Scopes,
    pub unknowns: Vec<Unknown>,
}
