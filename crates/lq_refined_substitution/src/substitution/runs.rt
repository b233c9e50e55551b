// Replacements in rows that several lists share.
ghost use Rattle.std.specs.Prelude.{◌≡◌, ◌+◌, ◌≤◌, ◌++◌, length, slice_get, List, Some, IfOk, MatchOption, MatchResult, OnOk};
ghost use Rattle.lq_refined_types.specs.Parts.Substitution.{Subst as Swaps, flag_at, sum_at};
ghost use Rattle.lq_logic_predicates.specs.PredView.{formula_of};
ghost use Rattle.lq_logic_predicates.specs.TermView.{sum_of};
ghost use Rattle.lq_refined_substitution.specs.declared.substitution.swaps.Swap.{Swap};
ghost use Rattle.lq_refined_substitution.specs.Substitution.Runs.{run_list, run_swaps, runs_view, swaps_view};

use crate::substitution::swaps::Swap;
use lq_logic_predicates::{Pred, Symbol, Term};
use std::alloc::{AllocError, Global};
use std::fmt::{Debug, Formatter, Result as Written, Write};
use std::rc::Rc;

/// Replacements in a row, which several lists may share.
#[derive(Drop)]
pub(crate) struct Run {
    swaps: Rc<Vec<Swap>>,
}

impl Debug for Run {
    fn fmt<W: Write>(&self, f: &mut Formatter<W>) -> Written {
        Debug::fmt(&self.as_slice(), f)
    }
}

impl Run {
    /// A row that no list shares yet.
    pub(crate) fn of(alloc: Global, swaps: Vec<Swap>) -> Result<Run, AllocError>
        ensures { IfOk result (λ run. run_swaps run ≡ swaps.items) }
    {
        let swaps = Rc::new(alloc, swaps)?;
        Ok(Run { swaps })
    }

    /// The same row for another list.
    pub(crate) fn share(&self) -> Result<Run, AllocError>
        ensures { IfOk result (λ run. run_swaps run ≡ run_swaps self.now) }
    {
        let swaps = self.swaps.clone()?;
        Ok(Run { swaps })
    }

    /// The replacements in their order.
    pub(crate) fn as_slice(&self) -> &[Swap]
        ensures { result.now ≡ run_swaps self.now }
    {
        self.swaps.as_ref().as_slice()
    }
}

/// Adds equal replacements behind others.
pub(crate) fn add_copies(
    alloc: Global,
    made: &mut Vec<Swap>,
    swaps: &[Swap],
) -> Result<(), AllocError>
    ensures { OnOk result (swaps_view made.new.items ≡ swaps_view made.old.items ++ swaps_view swaps.now) }
{
    for swap in swaps {
        made.push(swap.copy(alloc)?)?;
    }
    Ok(())
}

/// The same of the replacements of rows.
pub(crate) fn add_copies_of(
    alloc: Global,
    made: &mut Vec<Swap>,
    runs: &[Run],
) -> Result<(), AllocError>
    ensures { OnOk result (swaps_view made.new.items ≡ swaps_view made.old.items ++ runs_view runs.now) }
{
    for run in runs {
        add_copies(alloc, made, run.as_slice())?;
    }
    Ok(())
}

/// Adds rows behind others, which share them.
pub(crate) fn add_shared(made: &mut Vec<Run>, runs: &[Run]) -> Result<(), AllocError>
    ensures { OnOk result (run_list made.new.items ≡ run_list made.old.items ++ run_list runs.now) }
{
    for run in runs {
        made.push(run.share()?)?;
    }
    Ok(())
}

/// The same rows.
pub(crate) fn shared(alloc: Global, runs: &[Run]) -> Result<Vec<Run>, AllocError>
    ensures { IfOk result (λ made. run_list made.items ≡ run_list runs.now) }
{
    let mut made = Vec::with_capacity(alloc, runs.len())?;
    add_shared(&mut made, runs)?;
    Ok(made)
}

/// Adds a row behind others, unless it is empty.
pub(crate) fn add_run(
    alloc: Global,
    made: &mut Vec<Run>,
    swaps: Vec<Swap>,
) -> Result<(), AllocError>
    ensures { OnOk result (run_list made.new.items ≡ run_list made.old.items ++ swaps.items) }
{
    if swaps.is_empty() {
        return Ok(());
    }
    made.push(Run::of(alloc, swaps)?)?;
    Ok(())
}

// Rows at an end of others that are put together with what comes to that end: those that are no longer than it is with them. So there are
// few rows, and a replacement is copied few times.
#[derive(Clone, Copy)]
struct Joined {
    // How many rows.
    rows: usize,
    // How many replacements they make with what comes, or the most that is possible where that is past 64 bits.
    total: usize,
}

// The last rows that are put together with so many replacements behind them.
fn joined_before(runs: &[Run], count: usize) -> Joined
    ensures { result.rows ≤ length runs.now }
{
    let mut total = count;
    for at in (0..runs.len()).rev() {
        let len = runs[at].as_slice().len();
        if len > total {
            return Joined {
                rows: runs.len() - (at + 1),
                total,
            };
        }
        total = total.saturating_add(len);
    }
    Joined {
        rows: runs.len(),
        total,
    }
}

// The first rows that are put together with so many replacements before them.
fn joined_behind(runs: &[Run], count: usize) -> Joined
    ensures { result.rows ≤ length runs.now }
{
    let mut total = count;
    for at in 0..runs.len() {
        let len = runs[at].as_slice().len();
        if len > total {
            return Joined { rows: at, total };
        }
        total = total.saturating_add(len);
    }
    Joined {
        rows: runs.len(),
        total,
    }
}

/// Rows with replacements behind them.
pub(crate) fn behind(alloc: Global, runs: &[Run], swaps: &[Swap]) -> Result<Vec<Run>, AllocError>
    ensures { IfOk result (λ made. runs_view made.items ≡ runs_view runs.now ++ swaps_view swaps.now) }
{
    let joined = joined_before(runs, swaps.len());
    let kept = runs.len() - joined.rows;
    let mut made = Vec::with_capacity(alloc, kept.saturating_add(1))?;
    add_shared(&mut made, &runs[..kept])?;
    let mut all = Vec::with_capacity(alloc, joined.total)?;
    add_copies_of(alloc, &mut all, &runs[kept..])?;
    add_copies(alloc, &mut all, swaps)?;
    add_run(alloc, &mut made, all)?;
    Ok(made)
}

/// Rows with replacements before them.
pub(crate) fn in_front(alloc: Global, swaps: &[Swap], runs: &[Run]) -> Result<Vec<Run>, AllocError>
    ensures { IfOk result (λ made. runs_view made.items ≡ swaps_view swaps.now ++ runs_view runs.now) }
{
    let joined = joined_behind(runs, swaps.len());
    let mut all = Vec::with_capacity(alloc, joined.total)?;
    add_copies(alloc, &mut all, swaps)?;
    add_copies_of(alloc, &mut all, &runs[..joined.rows])?;
    let kept = runs.len() - joined.rows;
    let mut made = Vec::with_capacity(alloc, kept.saturating_add(1))?;
    add_run(alloc, &mut made, all)?;
    add_shared(&mut made, &runs[joined.rows..])?;
    Ok(made)
}

/// How many replacements there are in rows, and in others behind them.
pub(crate) fn count_of(front: &[Run], back: &[Run]) -> Result<usize, AllocError>
    ensures { IfOk result (λ n. n ≡ length (run_list front.now ++ run_list back.now)) }
{
    let front = counted(front, 0)?;
    counted(back, front)
}

// How many replacements there are in rows, and so many more.
fn counted(runs: &[Run], more: usize) -> Result<usize, AllocError>
    ensures { IfOk result (λ n. n ≡ more + length (run_list runs.now)) }
{
    let mut count = more;
    for run in runs {
        let Some(sum) = count.checked_add(run.as_slice().len()) else {
            return Err(AllocError);
        };
        count = sum;
    }
    Ok(count)
}

/// The replacement at an index of rows; or the index behind them, where there are fewer.
pub(crate) fn swap_at(runs: &[Run], at: usize) -> Result<&Swap, usize>
    ensures { MatchResult result
        (λ swap. (more : List Swap) → slice_get (run_list runs.now ++ more) at ≡ Some swap.now)
        (λ left. (more : List Swap) → slice_get (run_list runs.now ++ more) at ≡ slice_get more left) }
{
    let mut left = at;
    for run in runs {
        let swaps = run.as_slice();
        if left < swaps.len() {
            return Ok(&swaps[left]);
        }
        left -= swaps.len();
    }
    Err(left)
}

/// The term that the first of some replacements that counts puts for a symbol.
pub(crate) fn term_among<'a>(swaps: &'a [Swap], symbol: Symbol) -> Option<&'a Term>
    ensures { MatchOption result
        ((θ : Swaps) → sum_at (swaps_view swaps.now ++ θ) symbol ≡ sum_at θ symbol)
        (λ term. (θ : Swaps) → sum_at (swaps_view swaps.now ++ θ) symbol ≡ sum_of term.now) }
{
    for swap in swaps {
        if let Some(term) = swap.term_for(symbol) {
            return Some(term);
        }
    }
    None
}

/// The same of rows.
pub(crate) fn term_in<'a>(runs: &'a [Run], symbol: Symbol) -> Option<&'a Term>
    ensures { MatchOption result
        ((θ : Swaps) → sum_at (runs_view runs.now ++ θ) symbol ≡ sum_at θ symbol)
        (λ term. (θ : Swaps) → sum_at (runs_view runs.now ++ θ) symbol ≡ sum_of term.now) }
{
    for run in runs {
        if let Some(term) = term_among(run.as_slice(), symbol) {
            return Some(term);
        }
    }
    None
}

/// The predicate that the first of some replacements that counts puts for a symbol.
pub(crate) fn pred_among<'a>(swaps: &'a [Swap], symbol: Symbol) -> Option<&'a Pred>
    ensures { MatchOption result
        ((θ : Swaps) → flag_at (swaps_view swaps.now ++ θ) symbol ≡ flag_at θ symbol)
        (λ pred. (θ : Swaps) → flag_at (swaps_view swaps.now ++ θ) symbol ≡ formula_of pred.now) }
{
    for swap in swaps {
        if let Some(pred) = swap.pred_for(symbol) {
            return Some(pred);
        }
    }
    None
}

/// The same of rows.
pub(crate) fn pred_in<'a>(runs: &'a [Run], symbol: Symbol) -> Option<&'a Pred>
    ensures { MatchOption result
        ((θ : Swaps) → flag_at (runs_view runs.now ++ θ) symbol ≡ flag_at θ symbol)
        (λ pred. (θ : Swaps) → flag_at (runs_view runs.now ++ θ) symbol ≡ formula_of pred.now) }
{
    for run in runs {
        if let Some(pred) = pred_among(run.as_slice(), symbol) {
            return Some(pred);
        }
    }
    None
}
