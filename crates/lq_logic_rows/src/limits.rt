// How large the constants of rows may be.

/// Whole numbers whose sizes sum to less than it have sums and differences of 128 bits.
pub const SUM_LIMIT: u128 = 1 << 126;
