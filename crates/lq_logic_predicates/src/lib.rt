//! Terms, predicates, their tightened readings, and the rows that these gather. What a point is and when an
//! implication is valid is defined here; the points of the code stand in a crate above.
#![tactic(auto)]

mod error;
mod form;
mod gathering;
mod laws;
mod nnf;
mod pred;
mod symbol;
mod table;
mod term;
mod tightening;

pub use error::GatherError;
pub use gathering::gather;
pub use laws::{
    readings_are_met_by_cases, rows_say_what_comparisons_say, whole_numbers_are_a_point,
};
pub use lq_base_names::CompareOp;
pub use lq_logic_rows::{LinearEngine, LinearRow, LinearStop, Mark, Verdict};
pub use nnf::{Nnf, Nnfs};
pub use pred::{Closed, Pred, Preds, Stop};
pub use symbol::{Shape, Sort, Symbol};
pub use table::TermTable;
pub use term::{Term, Terms};
pub use tightening::tighten;
