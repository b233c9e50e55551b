// Replacements of symbols.
ghost use Rattle.std.specs.Prelude.{◌≡◌, ◌∷◌, IfOk, MatchOption};
ghost use Rattle.lq_refined_types.specs.Parts.Substitution.{Subst as Swaps, flag_at, sum_at};
ghost use Rattle.lq_logic_predicates.specs.PredView.{formula_of};
ghost use Rattle.lq_logic_predicates.specs.Sum.{same_symbol};
ghost use Rattle.lq_logic_predicates.specs.TermView.{sum_of};
ghost use Rattle.lq_refined_substitution.specs.Substitution.Runs.{swap_view};

use crate::substitution::atoms::Atom;
use lq_logic_predicates::{Pred, Symbol, Term};
use std::alloc::{AllocError, Global};

/// A symbol, and what is put for it.
#[derive(Debug, Drop)]
pub struct Swap {
    pub symbol: Symbol,
    pub atom: Atom,
}

impl Swap {
    // The same again.
    pub(crate) fn copy(&self, alloc: Global) -> Result<Swap, AllocError>
        ensures { IfOk result (λ made. swap_view made ≡ swap_view self.now) }
    {
        Ok(Swap {
            symbol: self.symbol,
            atom: self.atom.copy(alloc)?,
        })
    }

    // The term that it puts for a symbol.
    pub(crate) fn term_for(&self, symbol: Symbol) -> Option<&Term>
        ensures { MatchOption result
            ((θ : Swaps) → sum_at (swap_view self.now ∷ θ) symbol ≡ sum_at θ symbol)
            (λ term. (θ : Swaps) → sum_at (swap_view self.now ∷ θ) symbol ≡ sum_of term.now) }
    {
        match &self.atom {
            Atom::Term(term) => {
                if is_same_symbol(self.symbol, symbol) {
                    Some(term)
                } else {
                    None
                }
            }
            Atom::Pred(_) => None,
        }
    }

    // The predicate that it puts for a symbol.
    pub(crate) fn pred_for(&self, symbol: Symbol) -> Option<&Pred>
        ensures { MatchOption result
            ((θ : Swaps) → flag_at (swap_view self.now ∷ θ) symbol ≡ flag_at θ symbol)
            (λ pred. (θ : Swaps) → flag_at (swap_view self.now ∷ θ) symbol ≡ formula_of pred.now) }
    {
        match &self.atom {
            Atom::Pred(pred) => {
                if is_same_symbol(self.symbol, symbol) {
                    Some(pred)
                } else {
                    None
                }
            }
            Atom::Term(_) => None,
        }
    }
}

/// Whether two symbols are one.
pub(crate) fn is_same_symbol(first: Symbol, second: Symbol) -> bool
    ensures { result ≡ same_symbol first second }
{
    first == second
}
