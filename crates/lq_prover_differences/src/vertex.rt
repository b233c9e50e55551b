// What the table keeps of a vertex.
/// What stays as it is while an arc is being admitted.
#[derive(Clone, Copy)]
pub(crate) struct Kept {
    /// The potential under the arcs that were admitted.
    pub(crate) value: i128,
    /// One more than the number of the last arc that leads from it, or 0.
    pub(crate) last: usize,
    /// Whether an arc that was admitted names it.
    pub(crate) touched: bool,
}

/// A vertex: vertex 0 stands for the number 0, and vertex t + 1 for term t.
#[derive(Clone, Copy)]
pub(crate) struct Vertex {
    pub(crate) kept: Kept,
    /// The least that was offered for it while an arc is being admitted.
    pub(crate) next: i128,
    /// The arc of that offer.
    pub(crate) parent: usize,
}
