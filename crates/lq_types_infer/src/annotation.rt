//! A program's principal annotation, from the most general solution of its equations.

mod annotated;
mod bounds;
mod errors;
mod inferring;
mod laws;
mod measures;
mod numbering;
mod refusals;

pub use annotated::Annotated;
pub use errors::TypeError;
pub use inferring::infer;
pub use laws::{
    named_is_inference, seen_are_principal, seen_are_weak, seen_variables_are_apart,
    solved_is_principal, solved_variables_are_apart,
};
