//! What implications ask where unknowns stand for chosen instances.

mod asking;
mod goals;
mod hypotheses;
mod ranges;
mod spans;
mod standing;

pub use asking::closed_implication;
pub use goals::goal_unknowns;
pub use spans::unknown_spans;
