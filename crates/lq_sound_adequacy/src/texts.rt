//! What a typed text is asked for speaks of bound names: laws.

mod laws;

pub use laws::{
    text_environments_differ, text_implications_are_bound, text_implications_are_sorted,
    text_obligations_are_bound, texts_are_posed,
};
