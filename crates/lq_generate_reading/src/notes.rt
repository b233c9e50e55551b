//! What is known of the nodes and the binders of a typed program, in memory.

mod copying;
mod laws;
mod noted;

pub use laws::noted_are_known;
pub use noted::{Noted, note};
