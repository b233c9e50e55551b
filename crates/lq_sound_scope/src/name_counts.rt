//! Normal forms of texts bind few names: definitions and laws.

mod laws;

pub use laws::{normal_forms_bind_below, parsed_programs_make_few, short_texts_have_twins};
