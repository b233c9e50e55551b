//! Normal programs read as the typing rules have them, with their points.

mod blocks;
mod functions;
mod idling;
mod names;
mod operations;
mod patterns;
mod program;
mod pures;
mod state;
mod templates;

pub use program::{Reading, read};
