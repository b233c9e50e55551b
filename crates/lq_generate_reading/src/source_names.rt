//! Source names of what programs define, and that reading looks at the types of no other names: laws.

mod laws;

pub use laws::{made_names_are_not_read, normal_forms_keep_texts, resolved_programs_define_texts};
