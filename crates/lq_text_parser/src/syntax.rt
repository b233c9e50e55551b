//! Which trees the tokens of a text stand for, by a case for each line of the grammar.

mod laws;

pub use laws::{examples, one_tree, same_trees};
