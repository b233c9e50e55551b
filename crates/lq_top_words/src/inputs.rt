//! The texts that a command is about, fetched from a folder.

mod fault;
mod fetch;
mod inputs;
mod laws;

pub use fault::NotFetched;
pub use fetch::fetch_inputs;
pub use inputs::{FILE_LIMIT, Inputs};
pub use laws::one_fault;
