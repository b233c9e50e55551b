// How long a text may be.

/// No text that is lexed is longer, so its lines, columns and nodes have numbers of 32 bits.
pub const TEXT_LIMIT: usize = 1 << 24;
