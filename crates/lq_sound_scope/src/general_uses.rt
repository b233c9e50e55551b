//! That a name is used at types for its type's variables where an earlier item defined it: laws.

mod laws;

pub use laws::{
    normal_forms_use_before, noted_programs_use_before, noted_texts_use_before,
    read_programs_use_before,
};
