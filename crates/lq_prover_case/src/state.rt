//! The state of one path of a search for a proof: its facts, and what the engines know of them.

mod deciding;
mod filling;
mod flags;
mod holding;
mod rows;
mod state;
mod stored;

pub use flags::{FlagClash, Given};
pub use state::PathState;
