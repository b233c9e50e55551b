//! The meaning of programs of NanoML: what each form does, step by step, and when a program is safe.

mod fault;
mod laws;
mod samples;

pub use fault::FaultKind;
pub use laws::{
    adequacy, adequacy_of_programs, closing, closing_items, environments, numbers, one_outcome,
    one_step, other_places, output_grows, over_stays, parts_step, same_outcomes,
};
pub use samples::examples;
