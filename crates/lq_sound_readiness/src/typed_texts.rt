//! That typed programs of texts suit the typing rules: laws.

mod laws;

pub use laws::{texts_have_flat_patterns, typed_programs_suit, typed_texts_suit};
