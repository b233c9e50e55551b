//! What checks runs well, and is safe: definitions and laws.

mod laws;

pub use laws::{
    an_example_is_safe, blocks_run, checks_are_safe, data_example_is_safe, general_example_is_safe,
};
