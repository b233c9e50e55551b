// Lengths and measures among the terms of a case.
use lq_base_names::Name;

/// The length of an object, or where there is a name the measure of this name: its place among the applications, the number of its
/// term, and the number of its object.
#[derive(Clone, Copy)]
pub(crate) struct Application {
    pub(crate) index: usize,
    pub(crate) term: u64,
    pub(crate) measure: Option<Name>,
    pub(crate) object: u64,
}

/// A length or a measure, and a class of objects.
#[derive(Clone, Copy, PartialEq, Eq, Hash)]
pub(crate) struct FunctionAt {
    pub(crate) measure: Option<Name>,
    pub(crate) class: u64,
}
