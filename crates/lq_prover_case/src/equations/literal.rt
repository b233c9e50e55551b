// Literals.
use lq_logic_predicates::{Symbol, Term};
use lq_logic_rows::LinearRow;

/// A row, a flag with its value, or whether two objects are one.
#[derive(Clone, Copy)]
pub enum Literal<'a> {
    Row(&'a LinearRow),
    Flag(Symbol, bool),
    Same(&'a Term, &'a Term, bool),
}
