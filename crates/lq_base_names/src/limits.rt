// The numbers that are rules of the language.

/// No token of a text has a level above it.
pub const LEVEL_LIMIT: usize = 250;

/// Every literal is below it, but for the one behind a minus that is it.
pub const LITERAL_LIMIT: u128 = 1 << 127;
