//! Which types the rule of each visit of a scoped program names: each is of one item.

mod laws;

pub use laws::{scoped_items_own_slots, scoped_slots_are_apart, scoped_visits_are_in};
