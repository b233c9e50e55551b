// Replacements in a row, few by themselves and many as rows.
ghost use Rattle.std.specs.Prelude.{◌≡◌, [], ◌∷◌, ◌++◌, length, slice_get, IfOk, MatchOption, OnOk, OnErr};
ghost use Rattle.std.specs.Option.{option_copied};
ghost use Rattle.lq_refined_types.specs.Parts.Substitution.{flag_at, sum_at};
ghost use Rattle.lq_logic_predicates.specs.Formula.{flag};
ghost use Rattle.lq_logic_predicates.specs.PredView.{formula_of};
ghost use Rattle.lq_logic_predicates.specs.Sum.{var};
ghost use Rattle.lq_logic_predicates.specs.TermView.{sum_of};
ghost use Rattle.lq_refined_substitution.specs.Substitution.Listed.{listed_items, rows_items};
ghost use Rattle.lq_refined_substitution.specs.Substitution.Runs.{swap_view, swaps_view};

use crate::substitution::joining::joined;
use crate::substitution::rows::Rows;
use crate::substitution::runs::{add_copies, add_run, pred_among, term_among};
use crate::substitution::swaps::Swap;
use lq_logic_predicates::{Pred, Symbol, Term};
use std::alloc::{AllocError, Global};

/// Replacements in a row.
#[derive(Debug, Drop)]
pub(crate) enum Listed {
    Few(Vec<Swap>),
    Many(Box<Rows>),
}

impl Listed {
    /// Those of rows.
    pub(crate) fn of(alloc: Global, rows: Rows) -> Result<Listed, AllocError>
        ensures { IfOk result (λ made. listed_items made ≡ rows_items rows) }
    {
        let rows = Box::new(alloc, rows)?;
        Ok(Listed::Many(rows))
    }

    /// The same again.
    pub(crate) fn copy(&self, alloc: Global) -> Result<Listed, AllocError>
        ensures { IfOk result (λ made. swaps_view (listed_items made) ≡ swaps_view (listed_items self.now)) }
    {
        match self {
            Listed::Few(swaps) => {
                let mut made = Vec::with_capacity(alloc, swaps.len())?;
                add_copies(alloc, &mut made, swaps)?;
                Ok(Listed::Few(made))
            }
            Listed::Many(rows) => Listed::of(alloc, rows.share(alloc)?),
        }
    }

    /// How many there are.
    pub(crate) fn len(&self) -> usize
        ensures { result ≡ length (listed_items self.now) }
    {
        match self {
            Listed::Few(swaps) => swaps.len(),
            Listed::Many(rows) => rows.len(),
        }
    }

    /// The one at an index, and None past the last one.
    pub(crate) fn get(&self, at: usize) -> Option<&Swap>
        ensures { option_copied result ≡ slice_get (listed_items self.now) at }
    {
        match self {
            Listed::Few(swaps) => swaps.get(at),
            Listed::Many(rows) => rows.get(at),
        }
    }

    /// The term that is put for a symbol.
    pub(crate) fn term(&self, symbol: Symbol) -> Option<&Term>
        ensures { MatchOption result
            (sum_at (swaps_view (listed_items self.now)) symbol ≡ var symbol)
            (λ term. sum_at (swaps_view (listed_items self.now)) symbol ≡ sum_of term.now) }
    {
        match self {
            Listed::Few(swaps) => term_among(swaps, symbol),
            Listed::Many(rows) => rows.term(symbol),
        }
    }

    /// The predicate that is put for a symbol.
    pub(crate) fn pred(&self, symbol: Symbol) -> Option<&Pred>
        ensures { MatchOption result
            (flag_at (swaps_view (listed_items self.now)) symbol ≡ flag symbol)
            (λ pred. flag_at (swaps_view (listed_items self.now)) symbol ≡ formula_of pred.now) }
    {
        match self {
            Listed::Few(swaps) => pred_among(swaps, symbol),
            Listed::Many(rows) => rows.pred(symbol),
        }
    }

    /// Adds copies of all behind others.
    pub(crate) fn add_to(&self, alloc: Global, made: &mut Vec<Swap>) -> Result<(), AllocError>
        ensures { OnOk result (swaps_view made.new.items ≡ swaps_view made.old.items ++ swaps_view (listed_items self.now)) }
    {
        match self {
            Listed::Few(swaps) => add_copies(alloc, made, swaps),
            Listed::Many(rows) => rows.add_to(alloc, made),
        }
    }

    // One more behind the others.
    pub(crate) fn push(&mut self, swap: Swap) -> Result<(), AllocError>
        ensures ok { OnOk result (swaps_view (listed_items self.new) ≡ swaps_view (listed_items self.old) ++ swap_view swap ∷ []) }
        ensures err { OnErr result (swaps_view (listed_items self.new) ≡ swaps_view (listed_items self.old)) }
    {
        match self {
            Listed::Few(swaps) => {
                swaps.push(swap)?;
                Ok(())
            }
            Listed::Many(rows) => rows.push(swap),
        }
    }

    // The same as rows.
    fn rows(&self, alloc: Global) -> Result<Rows, AllocError>
        ensures { IfOk result (λ rows. swaps_view (rows_items rows) ≡ swaps_view (listed_items self.now)) }
    {
        match self {
            Listed::Few(swaps) => {
                let mut copies = Vec::with_capacity(alloc, swaps.len())?;
                add_copies(alloc, &mut copies, swaps)?;
                let mut back = Vec::with_capacity(alloc, 1)?;
                add_run(alloc, &mut back, copies)?;
                Rows::of(Vec::new(alloc), back)
            }
            Listed::Many(rows) => rows.share(alloc),
        }
    }

    /// These and others behind them, as rows.
    pub(crate) fn then(&self, alloc: Global, more: &Listed) -> Result<Listed, AllocError>
        ensures { IfOk result (λ made. swaps_view (listed_items made)
            ≡ swaps_view (listed_items self.now) ++ swaps_view (listed_items more.now)) }
    {
        let Rows { front, back, .. } = self.rows(alloc)?;
        let rows = joined(alloc, front, back, self.len(), &more.rows(alloc)?)?;
        Listed::of(alloc, rows)
    }
}
