//! What the readings of the three texts make: values, actions on them, and trees.
#![tactic(auto)]

mod blocks;
mod builder;
mod entries;
mod items;
mod laws;
mod numbers;
mod operands;
mod patterns;
mod predicates;
mod steps;
mod typing;
mod values;

pub use builder::Builder;
pub use entries::{pop_measures, pop_qualifiers};
pub use items::pop_items;
pub use laws::{few_items, one_value, readings_make_texts};
pub use steps::run;
pub use values::{Commas, Content, Lexeme, MakeError, Parsed, Value};
