//! What holds of the trees of every parsed text.

mod laws;

pub use laws::{
    parsed_programs_are_scoped, parsed_programs_are_small, parsed_programs_have_places,
};
