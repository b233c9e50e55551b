//! What is read of a program is determined by the program: laws.

mod laws;

pub use laws::{noted_have_annotations, one_annotation, one_note, one_reading};
