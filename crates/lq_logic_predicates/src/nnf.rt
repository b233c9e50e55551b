// Tightened readings.
ghost use Rattle.std.specs.Prelude.{◌≡◌, [], ◌∷◌, ◌++◌, length, slice_get, option_copied, OnOk, OnErr, IfOk};

use crate::symbol::Symbol;
use crate::term::Term;
use lq_logic_rows::LinearRow;
use std::alloc::{AllocError, Global};

/// A tightened reading: literals under "all of" and "any of".
#[cycle(nnf)]
#[derive(Drop)]
pub enum Nnf {
    /// It always holds.
    Yes,
    /// It never holds.
    No,
    /// A row holds.
    Row(LinearRow),
    /// A flag is true, or is false.
    Flag(Symbol, bool),
    /// Two objects are one, or are not.
    Same(Term, Term, bool),
    /// All of them hold.
    All(Nnfs),
    /// At least one of them holds.
    Any(Nnfs),
}

/// Readings in a row.
#[cycle(nnf)]
#[derive(Drop)]
pub struct Nnfs {
    pub(crate) items: Vec<Nnf>,
}

impl Nnfs {
    ghost use Rattle.lq_logic_predicates.specs.NnfView.{nnf_items};

    /// No readings.
    pub fn new(alloc: Global) -> Result<Nnfs, AllocError>
        ensures { IfOk result (λ nnfs. nnf_items nnfs ≡ []) }
    {
        Ok(Nnfs {
            items: Vec::new(alloc),
        })
    }

    /// How many readings there are.
    pub fn len(&self) -> usize
        ensures { result ≡ length (nnf_items self.now) }
    {
        self.items.len()
    }

    /// The reading at an index, and None past the last one.
    pub fn get(&self, at: usize) -> Option<&Nnf>
        ensures { option_copied result ≡ slice_get (nnf_items self.now) at }
    {
        self.items.get(at)
    }

    /// The readings in their order.
    pub fn as_slice(&self) -> &[Nnf]
        ensures { result.now ≡ nnf_items self.now }
    {
        self.items.as_slice()
    }

    /// Adds a reading at the end. Where memory is refused, the readings stay as they were.
    pub fn push(&mut self, nnf: Nnf) -> Result<(), AllocError>
        ensures ok { OnOk result (nnf_items self.new ≡ nnf_items self.old ++ nnf ∷ []) }
        ensures err { OnErr result (nnf_items self.new ≡ nnf_items self.old) }
    {
        self.items.push(nnf)?;
        Ok(())
    }
}
