//! The normal form keeps every outcome.

mod laws;

pub use laws::{
    clear_normal_form_keeps_outcomes, examples, flattening_keeps, flattening_keeps_programs,
    named_are_clear, naming_keeps, naming_keeps_programs, normal_form_keeps_outcomes, one_pass,
    right_first, typed_normal_form_keeps_outcomes,
};
