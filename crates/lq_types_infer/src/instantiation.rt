//! The types by which the uses of generalised definitions are instantiated.

mod general;
mod instantiated;
mod matching;
mod opens;
mod visiting;

pub use instantiated::{Instantiated, instantiate};
