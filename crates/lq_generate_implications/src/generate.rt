//! The implications of a program.

mod error;
mod generating;

pub use error::GenerateError;
pub use generating::{Generated, generate};
