//! Environments of implications: each names its parent and the hypothesis that it adds, so that what they share is held once.

mod environments;

pub use environments::{Environment, Environments};
