// Arcs, and the rows that give them.
/// The bound "the value at `to` is at most the value at `from` plus the cost", taken from the row with this tag: as the row
/// is read, or, where not `forward`, from an equation read backwards.
#[derive(Clone, Copy)]
pub(crate) struct Arc {
    pub(crate) tag: u64,
    pub(crate) from: usize,
    pub(crate) to: usize,
    pub(crate) cost: i128,
    pub(crate) forward: bool,
}

/// A row that stands: "the value at `to` minus the value at `from` plus the weight is at most 0", or "is 0" where `equal` is set.
#[derive(Clone, Copy)]
pub(crate) struct Edge {
    pub(crate) tag: u64,
    pub(crate) from: usize,
    pub(crate) to: usize,
    pub(crate) weight: i128,
    pub(crate) equal: bool,
}
