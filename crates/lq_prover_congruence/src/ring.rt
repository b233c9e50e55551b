//! Circular lists of indexes that are joined and split in constant time.

mod rings;
mod walk;

pub use rings::Rings;
pub use walk::RingWalk;
