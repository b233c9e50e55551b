// What stands for a symbol.
ghost use Rattle.std.specs.Prelude.{◌≡◌, IfOk};
ghost use Rattle.lq_refined_substitution.specs.Substitution.Views.{atom_view};

use lq_logic_predicates::{Pred, Term};
use std::alloc::{AllocError, Global};

/// What is put for a symbol: a predicate for a flag, a term for every other one.
#[derive(Debug, Drop)]
pub enum Atom {
    /// For a whole number or an object.
    Term(Term),
    /// For a flag.
    Pred(Pred),
}

impl Atom {
    /// An equal atom.
    pub fn copy(&self, alloc: Global) -> Result<Atom, AllocError>
        ensures { IfOk result (λ atom. atom_view atom ≡ atom_view self.now) }
    {
        match self {
            Atom::Term(term) => Ok(Atom::Term(term.copy(alloc)?)),
            Atom::Pred(pred) => Ok(Atom::Pred(pred.copy(alloc)?)),
        }
    }
}
