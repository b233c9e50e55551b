// What was done, in order.
use crate::classes::head::Head;
use crate::classes::ids::Ids;

/// What was done.
#[derive(Drop)]
pub enum Step {
    /// A term was added, under the next number.
    Added(Head, Ids),
    /// Two terms were made the same, for a reason.
    Merged(u64, u64, u64),
    /// Two terms were told to differ.
    Differed(u64, u64),
}

/// Two terms.
#[derive(Clone, Copy, Debug, PartialEq, Eq)]
pub struct Pair {
    pub left: u64,
    pub right: u64,
}

/// A step, or a part of what followed from it.
#[derive(Drop)]
pub(crate) enum Entry {
    /// A step.
    Done(Step),
    /// The class of the label `moved` got the label `kept`.
    Joined { kept: u64, moved: u64 },
    /// A term was filed under its signature.
    Filed,
}
