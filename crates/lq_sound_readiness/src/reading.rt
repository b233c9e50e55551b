//! What a normal program means when it is read as one of the typing rules.

mod laws;

pub use laws::{what_is_read_is_typed, what_is_read_means_the_same};
