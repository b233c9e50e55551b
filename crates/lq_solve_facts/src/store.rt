//! What is known of implications by facts and readings of their hypotheses that are kept from question to question.

mod adding;
mod aiming;
mod answer;
mod kept;
mod left;
mod level;
mod reading;
mod refuting;
mod store;
mod way;

pub use answer::Answer;
pub use kept::Kept;
