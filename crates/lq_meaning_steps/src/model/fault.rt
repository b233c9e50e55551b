/// What can go wrong in a run.
#[derive(Clone, Copy, Debug, PartialEq, Eq)]
pub enum FaultKind {
    /// The condition of an assertion is false.
    AssertFailed,
    /// An index of an array is below 0 or not below its length.
    OutOfBounds,
    /// The divisor of `/` or `mod` is 0.
    ZeroDivisor,
    /// `Array.make` is called with a length below 0.
    NegativeLength,
    /// No arm of a match fits.
    NoCase,
}
