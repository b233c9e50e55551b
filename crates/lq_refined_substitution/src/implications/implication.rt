// Implications between parts.
use crate::substitution::{Part, Parts};
use lq_base_names::Place;

/// What an implication comes of.
#[derive(Clone, Copy, Debug, PartialEq, Eq)]
pub enum Reason {
    /// An assertion holds.
    Assertion,
    /// An index is within its array.
    Index,
    /// A divisor isn't 0.
    Divisor,
    /// The length of a new array isn't below 0.
    Length,
    /// A value has no constructor that its match leaves out.
    Case,
    /// An operand has the type that is asked of it.
    Argument,
    /// A value has the type of the place that it reaches.
    Flow,
}

/// An implication: under the hypotheses of an environment and those of a left type, the goal.
#[derive(Debug, Drop)]
pub struct Implication {
    pub env: u64,
    pub left: Parts,
    pub goal: Part,
    pub place: Place,
    pub reason: Reason,
}
