// What is put for symbols.
ghost use Rattle.std.specs.Prelude.{◌≡◌, [], ◌∷◌, ◌++◌, length, slice_get, IfOk, MatchOption, OnOk, OnErr};
ghost use Rattle.std.specs.Option.{option_copied};
ghost use Rattle.lq_refined_types.specs.Parts.Substitution.{flag_at, sum_at, swap};
ghost use Rattle.lq_logic_predicates.specs.Formula.{flag};
ghost use Rattle.lq_logic_predicates.specs.PredView.{formula_of};
ghost use Rattle.lq_logic_predicates.specs.Sum.{var};
ghost use Rattle.lq_logic_predicates.specs.TermView.{sum_of};
ghost use Rattle.lq_refined_substitution.specs.Substitution.Views.{atom_view, subst_view, swap_items};

use crate::substitution::atoms::Atom;
use crate::substitution::listed::Listed;
use crate::substitution::swaps::Swap;
use lq_logic_predicates::{Pred, Symbol, Term};
use std::alloc::{AllocError, Global};

/// What is put for symbols. Where a symbol stands twice, the first of its terms counts at the place of a term, and the first of its
/// predicates at that of a flag. Long lists that are made of one another share what they have in common, but for a few replacements.
#[derive(Debug, Drop)]
pub struct Subst {
    pub(crate) list: Listed,
}

impl Subst {
    /// Nothing is put for any symbol.
    pub fn new(alloc: Global) -> Subst
        ensures { subst_view result ≡ [] }
    {
        Subst {
            list: Listed::Few(Vec::new(alloc)),
        }
    }

    /// One symbol and what is put for it.
    pub fn single(alloc: Global, symbol: Symbol, atom: Atom) -> Result<Subst, AllocError>
        ensures { IfOk result (λ by. subst_view by ≡ swap symbol (atom_view atom) ∷ []) }
    {
        let swaps = vec![in alloc; Swap { symbol, atom }]?;
        Ok(Subst {
            list: Listed::Few(swaps),
        })
    }

    /// How many replacements there are.
    pub fn len(&self) -> usize
        ensures { result ≡ length (subst_view self.now) }
    {
        self.list.len()
    }

    /// The replacement at an index, and None past the last one.
    pub fn get(&self, at: usize) -> Option<&Swap>
        ensures { option_copied result ≡ slice_get (swap_items self.now) at }
    {
        self.list.get(at)
    }

    /// Puts the atom for the symbol too, behind the others. Where memory is refused, they stay as they were.
    pub fn push(&mut self, symbol: Symbol, atom: Atom) -> Result<(), AllocError>
        ensures ok { OnOk result (subst_view self.new ≡ subst_view self.old ++ swap symbol (atom_view atom) ∷ []) }
        ensures err { OnErr result (subst_view self.new ≡ subst_view self.old) }
    {
        self.list.push(Swap { symbol, atom })
    }

    /// The same replacements in the same order.
    pub fn copy(&self, alloc: Global) -> Result<Subst, AllocError>
        ensures { IfOk result (λ by. subst_view by ≡ subst_view self.now) }
    {
        let list = self.list.copy(alloc)?;
        Ok(Subst { list })
    }

    // The term that is put for a symbol.
    pub(crate) fn term(&self, symbol: Symbol) -> Option<&Term>
        ensures { MatchOption result
            (sum_at (subst_view self.now) symbol ≡ var symbol)
            (λ term. sum_at (subst_view self.now) symbol ≡ sum_of term.now) }
    {
        self.list.term(symbol)
    }

    // The predicate that is put for a symbol.
    pub(crate) fn pred(&self, symbol: Symbol) -> Option<&Pred>
        ensures { MatchOption result
            (flag_at (subst_view self.now) symbol ≡ flag symbol)
            (λ pred. flag_at (subst_view self.now) symbol ≡ formula_of pred.now) }
    {
        self.list.pred(symbol)
    }

    /// What stands for a symbol at the place of a term.
    pub fn term_for(&self, alloc: Global, symbol: Symbol) -> Result<Term, AllocError>
        ensures { IfOk result (λ term. sum_of term ≡ sum_at (subst_view self.now) symbol) }
    {
        match self.term(symbol) {
            Some(term) => term.copy(alloc),
            None => Ok(Term::Var(symbol)),
        }
    }

    /// What stands for a symbol at the place of a flag.
    pub fn pred_for(&self, alloc: Global, symbol: Symbol) -> Result<Pred, AllocError>
        ensures { IfOk result (λ pred. formula_of pred ≡ flag_at (subst_view self.now) symbol) }
    {
        match self.pred(symbol) {
            Some(pred) => pred.copy(alloc),
            None => Ok(Pred::Flag(symbol)),
        }
    }
}
