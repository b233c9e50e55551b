//! What a state says of lengths and measures: objects by their numbers, the equations of lengths and measures of one object, and values.

mod application;
mod arguments;
mod chain;
mod equating;
mod literal;
mod object_table;
mod taking;
mod values;

pub use arguments::add_arguments;
pub use chain::{Joint, wrapped};
pub use equating::equate_all;
pub use literal::Literal;
pub use object_table::ObjectTable;
pub use taking::take_literal;
pub use values::{object_classes, term_values};
