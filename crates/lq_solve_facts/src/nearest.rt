//! Whether implications follow from the hypotheses that stand nearest to their goals, and what parts add and prove as facts.

mod adding;
mod aiming;
mod nearest;

pub use adding::add_part;
pub use aiming::proves_part;
pub use nearest::follows;
