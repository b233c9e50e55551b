//! That typed programs are ready for their implications: laws.

mod laws;

pub use laws::{normal_programs_are_ready, typed_programs_are_ready, typed_texts_are_ready};
