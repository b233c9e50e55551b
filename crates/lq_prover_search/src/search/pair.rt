// Pairs of applications.
use lq_logic_predicates::Nnfs;

/// Two applications of one of `*`, `/` and `mod`, by their numbers from 1, and the ways in which they stand: the arguments and the results
/// are equal, or an argument of one is at least 1 below that of the other.
#[derive(Drop)]
pub struct Pair {
    pub left: u64,
    pub right: u64,
    pub ways: Nnfs,
}
