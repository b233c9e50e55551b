//! Definitions of texts that are values or whose types have no variables, and matches of texts, which have an arm: definitions and laws.

mod laws;

pub use laws::{
    normal_forms_have_arms, normal_forms_of_values_are_values, texts_have_arms,
    typed_programs_are_settled, typed_texts_are_settled, typed_texts_have_arms,
};
