//! Scalar programs, and that what is read of them is plain: definitions and laws.

mod laws;

pub use laws::{
    an_example_is_scalar, an_example_with_a_general_name_is_scalar,
    an_example_with_lists_is_scalar, definitions_are_nameless, scalar_normal_forms_are_plain,
    scalar_programs_are_plain, templates_are_written,
};
