//! The words of the command line, and the command that they are.

mod command;
mod line;
mod number;
mod words;

pub use command::{Command, Judge, Mode};
pub use words::Words;
