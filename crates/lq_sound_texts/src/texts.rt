//! Texts whose implications are valid are safe: laws.

mod laws;

pub use laws::{texts_are_plain, texts_are_safe};
