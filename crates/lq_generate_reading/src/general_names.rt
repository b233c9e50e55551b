//! The generalised definitions that a program uses: laws.

mod laws;

pub use laws::{general_uses_are_defined, general_uses_have_texts};
