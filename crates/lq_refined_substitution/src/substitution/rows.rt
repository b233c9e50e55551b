// Many replacements, as rows that several lists share.
ghost use Rattle.std.specs.Prelude.{◌≡◌, ◌++◌, length};
ghost use Rattle.lq_refined_substitution.specs.Substitution.Runs.{run_list};

use crate::substitution::runs::{
    Run, add_copies_of, behind, count_of, pred_in, shared, swap_at, term_in,
};
use crate::substitution::swaps::Swap;
use lq_logic_predicates::{Pred, Symbol, Term};
use std::alloc::{AllocError, Global};

/// No more replacements are copied to stand in a row with others; more are shared.
pub(crate) const FEW: usize = 8;

/// Rows that grow at their beginning, where a longer one stands behind a shorter one, and behind them rows that grow at their end.
#[derive(Debug, Drop)]
pub(crate) struct Rows {
    pub(crate) front: Vec<Run>,
    pub(crate) back: Vec<Run>,
    count: usize,
    ghost counted: { count ≡ length (run_list front.items ++ run_list back.items) },
}

impl Rows {
    ghost use Rattle.std.specs.Prelude.{◌≡◌, [], ◌∷◌, ◌++◌, length, slice_get, IfOk, MatchOption, OnOk, OnErr};
    ghost use Rattle.std.specs.Option.{option_copied};
    ghost use Rattle.lq_refined_types.specs.Parts.Substitution.{flag_at, sum_at};
    ghost use Rattle.lq_logic_predicates.specs.Formula.{flag};
    ghost use Rattle.lq_logic_predicates.specs.PredView.{formula_of};
    ghost use Rattle.lq_logic_predicates.specs.Sum.{var};
    ghost use Rattle.lq_logic_predicates.specs.TermView.{sum_of};
    ghost use Rattle.lq_refined_substitution.specs.Substitution.Listed.{rows_items};
    ghost use Rattle.lq_refined_substitution.specs.Substitution.Runs.{run_list, swap_view, swaps_view};

    /// The replacements of some rows, and of others behind them.
    pub(crate) fn of(front: Vec<Run>, back: Vec<Run>) -> Result<Rows, AllocError>
        ensures { IfOk result (λ rows. rows_items rows ≡ run_list front.items ++ run_list back.items) }
    {
        let count = count_of(&front, &back)?;
        Ok(Rows { front, back, count })
    }

    /// The same rows for another list.
    pub(crate) fn share(&self, alloc: Global) -> Result<Rows, AllocError>
        ensures { IfOk result (λ rows. rows_items rows ≡ rows_items self.now) }
    {
        let front = shared(alloc, &self.front)?;
        let back = shared(alloc, &self.back)?;
        Rows::of(front, back)
    }

    /// How many replacements there are.
    pub(crate) fn len(&self) -> usize
        ensures { result ≡ length (rows_items self.now) }
    {
        self.count
    }

    /// The replacement at an index, and None past the last one.
    pub(crate) fn get(&self, at: usize) -> Option<&Swap>
        ensures { option_copied result ≡ slice_get (rows_items self.now) at }
    {
        match swap_at(&self.front, at) {
            Ok(swap) => Some(swap),
            Err(left) => match swap_at(&self.back, left) {
                Ok(swap) => Some(swap),
                Err(_) => None,
            },
        }
    }

    /// The term that is put for a symbol.
    pub(crate) fn term(&self, symbol: Symbol) -> Option<&Term>
        ensures { MatchOption result
            (sum_at (swaps_view (rows_items self.now)) symbol ≡ var symbol)
            (λ term. sum_at (swaps_view (rows_items self.now)) symbol ≡ sum_of term.now) }
    {
        if let Some(term) = term_in(&self.front, symbol) {
            return Some(term);
        }
        term_in(&self.back, symbol)
    }

    /// The predicate that is put for a symbol.
    pub(crate) fn pred(&self, symbol: Symbol) -> Option<&Pred>
        ensures { MatchOption result
            (flag_at (swaps_view (rows_items self.now)) symbol ≡ flag symbol)
            (λ pred. flag_at (swaps_view (rows_items self.now)) symbol ≡ formula_of pred.now) }
    {
        if let Some(pred) = pred_in(&self.front, symbol) {
            return Some(pred);
        }
        pred_in(&self.back, symbol)
    }

    /// Adds a replacement behind the others. Where memory is refused, they stay as they were.
    pub(crate) fn push(&mut self, swap: Swap) -> Result<(), AllocError>
        ensures ok { OnOk result (swaps_view (rows_items self.new) ≡ swaps_view (rows_items self.old) ++ swap_view swap ∷ []) }
        ensures err { OnErr result (swaps_view (rows_items self.new) ≡ swaps_view (rows_items self.old)) }
    {
        let alloc = *self.back.allocator();
        let back = behind(alloc, &self.back, &vec![in alloc; swap]?)?;
        let count = count_of(&self.front, &back)?;
        self.back = back;
        self.count = count;
        Ok(())
    }

    /// Adds copies of all replacements behind others.
    pub(crate) fn add_to(&self, alloc: Global, made: &mut Vec<Swap>) -> Result<(), AllocError>
        ensures { OnOk result (swaps_view made.new.items ≡ swaps_view made.old.items ++ swaps_view (rows_items self.now)) }
    {
        add_copies_of(alloc, made, &self.front)?;
        add_copies_of(alloc, made, &self.back)
    }
}
