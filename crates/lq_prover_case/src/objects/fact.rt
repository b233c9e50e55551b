// A fact about two objects.

/// Whether two objects are one, as the fact of a number says.
#[derive(Clone, Copy, Debug, PartialEq, Eq)]
pub struct ObjectFact {
    pub left: u64,
    pub right: u64,
    pub one: bool,
    pub number: u64,
}
