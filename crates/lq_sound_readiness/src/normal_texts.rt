//! Programs of texts have a rule of the normal form at each node: laws.

mod laws;

pub use laws::{
    annotated_programs_have_types, parsed_programs_are_written, typed_programs_have_rules,
    typed_texts_have_rules,
};
