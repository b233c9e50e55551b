//! The rules of types for normal trees, and that the normal form obeys them: definitions and laws.

mod laws;

pub use laws::{
    examples, made_names_run, normal_form_keeps_types, programs_keep_given_types,
    programs_keep_types, scoped_programs_are_plain,
};
