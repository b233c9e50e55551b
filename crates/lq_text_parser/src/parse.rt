//! The three grammars read with places.

mod check;
mod error;
mod laws;
mod lexemes;
mod parse;
mod steps;
mod terminals;

pub use check::check_text;
pub use error::ParseError;
pub use laws::{one_answer, one_tree};
pub use parse::{parse_measures, parse_program, parse_quals};
