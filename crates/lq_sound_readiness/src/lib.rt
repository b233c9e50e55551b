//! What is read of the normal form of a typed text is ready for the typing rules: definitions and laws.
#![tactic(auto)]

pub mod binders;
pub mod normal_reading;
pub mod normal_scope;
pub mod normal_texts;
pub mod programs;
pub mod reading;
pub mod text_programs;
pub mod typed_texts;
pub mod uniqueness;
pub mod uses;
