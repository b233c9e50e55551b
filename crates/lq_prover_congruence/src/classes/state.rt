// The parts of which the classes are made.
ghost use Rattle.std.specs.Prelude.{◌≡◌, [], IfOk};
ghost use Rattle.lq_prover_congruence.specs.Classes.Standing.{IsStanding};

use crate::classes::ids::Ids;
use crate::classes::steps::Entry;
use crate::classes::table::Table;
use crate::ring::Rings;
use std::alloc::{AllocError, Global};

/// The parts of which the classes are made.
#[derive(Drop)]
pub(crate) struct State {
    pub(crate) alloc: Global,
    /// Each term with its number, in order.
    pub(crate) known: Table,
    /// Terms by their signatures: a head and the labels of the arguments.
    pub(crate) filed: Table,
    /// The label of each term, which is one of the terms of its class.
    pub(crate) labels: Vec<u64>,
    /// How many terms have a label.
    pub(crate) sizes: Vec<u64>,
    /// The terms of each class.
    pub(crate) rings: Rings,
    /// The terms that have a term as an argument.
    pub(crate) uses: Vec<Ids>,
    /// What was done, and what followed, in order.
    pub(crate) trail: Vec<Entry>,
    /// How many steps stand.
    pub(crate) steps: u64,
}

impl State {
    /// Nothing.
    pub(crate) fn new(alloc: Global) -> Result<State, AllocError>
        ensures standing { IfOk result (λ state. IsStanding state) }
        ensures none { IfOk result (λ state. state.trail.items ≡ []) }
    {
        Ok(State {
            alloc,
            known: Table::new(alloc),
            filed: Table::new(alloc),
            labels: Vec::new(alloc),
            sizes: Vec::new(alloc),
            rings: Rings::new(alloc, 0)?,
            uses: Vec::new(alloc),
            trail: Vec::new(alloc),
            steps: 0,
        })
    }
}
