// Choices of a path.
use lq_logic_predicates::Nnfs;

/// Readings of which at least one is to hold, and whether one of them was taken.
#[derive(Clone, Copy)]
pub struct Choice<'a> {
    pub members: &'a Nnfs,
    pub is_done: bool,
}
