// What a search speaks of.
use crate::search::pair::Pair;
use indexmap::IndexSet;
use lq_logic_predicates::{Symbol, TermTable};
use lq_prover_case::equations::ObjectTable;

/// The terms of rows, the objects and the flags of readings, and the pairs of applications, each two of which agree at a point.
#[derive(Clone, Copy)]
pub struct Givens<'a> {
    pub terms: &'a TermTable,
    pub objects: &'a ObjectTable,
    pub flags: &'a IndexSet<Symbol>,
    pub pairs: &'a [Pair],
}
