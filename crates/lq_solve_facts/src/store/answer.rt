// What is answered of an implication.

/// What is known of an implication.
#[derive(Drop)]
pub enum Answer {
    /// It is valid.
    Holds,
    /// It fails at some point, which refutes these of the chosen instances of its goal, and no others.
    Refuted(Vec<u64>),
    /// Neither is known.
    Open,
}
