//! What is read of the normal form of a typed text is simply typed, and ready for its implications: laws.

mod laws;

pub use laws::{noted_texts_are_ready, noted_texts_are_typed, ready_is_once};
