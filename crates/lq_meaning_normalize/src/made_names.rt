//! The made names of a normal program, numbered in the order in which naming binds them.

mod laws;
mod listing;
mod numbers;
mod patterns;

pub use laws::made_names_are_in_order;
pub use numbers::made_numbers;
