// What an expression became.
use lq_meaning_normal_tree::{Atom, Operation};

/// What can stand as an operand, and whether the expression is pure as it is written; or another operation.
#[derive(Drop)]
pub enum Normal {
    Atom(Atom, bool),
    Operation(Operation),
}
