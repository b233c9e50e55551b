// Patterns.

use lq_base_names::{Name, Place};
/// A pattern, with the place of its first token. Parentheses around it don't belong to it.
#[cycle(pattern)]
#[derive(Drop)]
pub struct Pat<B> {
    pub place: Place,
    pub node: PatNode<B>,
}

#[cycle(pattern)]
#[derive(Drop)]
pub enum PatNode<B> {
    /// `_`
    Any,
    Bind(B),
    /// `()`
    Unit,
    Tuple(Pats<B>),
    /// A constructor, its own place, and its arguments. The list patterns `[]` and `x :: y` are constructors too.
    Build(Name, Place, Pats<B>),
}

/// Patterns in a row.
#[cycle(pattern)]
#[derive(Drop)]
pub struct Pats<B> {
    pub(crate) items: Vec<Pat<B>>,
}
