// Replacements one after another.
ghost use Rattle.std.specs.Prelude.{◌≡◌, ◌++◌, map, IfOk, OnOk};
ghost use Rattle.lq_refined_types.specs.Parts.Substitution.{after};
ghost use Rattle.lq_refined_substitution.specs.Substitution.Composing.{put_in};
ghost use Rattle.lq_refined_substitution.specs.Substitution.Listed.{listed_items, rows_items};
ghost use Rattle.lq_refined_substitution.specs.Substitution.Views.{run_swaps, runs_view, subst_view, swaps_view};

use crate::substitution::leaving::leaves_each;
use crate::substitution::listed::Listed;
use crate::substitution::rows::{FEW, Rows};
use crate::substitution::runs::Run;
use crate::substitution::substituting::substitute_atom;
use crate::substitution::substs::Subst;
use crate::substitution::swaps::Swap;
use std::alloc::{AllocError, Global};

// Adds replacements behind others, with something put into what they put for symbols.
fn add_put_into(
    alloc: Global,
    by: &Subst,
    made: &mut Vec<Swap>,
    swaps: &[Swap],
) -> Result<(), AllocError>
    ensures { OnOk result (swaps_view made.new.items ≡ swaps_view made.old.items
        ++ map (put_in (subst_view by.now)) (swaps_view swaps.now)) }
{
    for swap in swaps {
        let atom = substitute_atom(alloc, &swap.atom, by)?;
        made.push(Swap {
            symbol: swap.symbol,
            atom,
        })?;
    }
    Ok(())
}

// A row with something put into what it puts for symbols. Where nothing changes it is shared.
fn put_into_row(alloc: Global, by: &Subst, run: &Run) -> Result<Run, AllocError>
    ensures { IfOk result (λ made. swaps_view (run_swaps made) ≡ map (put_in (subst_view by.now)) (swaps_view (run_swaps run.now))) }
{
    let swaps = run.as_slice();
    if leaves_each(swaps, by) {
        return run.share();
    }
    let mut made = Vec::with_capacity(alloc, swaps.len())?;
    add_put_into(alloc, by, &mut made, swaps)?;
    Run::of(alloc, made)
}

// The same of rows.
fn put_into_rows(alloc: Global, by: &Subst, runs: &[Run]) -> Result<Vec<Run>, AllocError>
    ensures { IfOk result (λ made. runs_view made.items ≡ map (put_in (subst_view by.now)) (runs_view runs.now)) }
{
    let mut made = Vec::with_capacity(alloc, runs.len())?;
    for run in runs {
        made.push(put_into_row(alloc, by, run)?)?;
    }
    Ok(made)
}

// Few replacements with something put into what they put for symbols, and that behind them.
fn few_then(alloc: Global, by: &Subst, swaps: &[Swap]) -> Result<Listed, AllocError>
    ensures { IfOk result (λ made. swaps_view (listed_items made)
        ≡ map (put_in (subst_view by.now)) (swaps_view swaps.now) ++ subst_view by.now) }
{
    let total = by.len().saturating_add(swaps.len());
    if total <= FEW {
        let mut made = Vec::with_capacity(alloc, total)?;
        add_put_into(alloc, by, &mut made, swaps)?;
        by.list.add_to(alloc, &mut made)?;
        return Ok(Listed::Few(made));
    }
    let mut made = Vec::with_capacity(alloc, swaps.len())?;
    add_put_into(alloc, by, &mut made, swaps)?;
    Listed::Few(made).then(alloc, &by.list)
}

// The same of many.
fn many_then(alloc: Global, by: &Subst, rows: &Rows) -> Result<Listed, AllocError>
    ensures { IfOk result (λ made. swaps_view (listed_items made)
        ≡ map (put_in (subst_view by.now)) (swaps_view (rows_items rows.now)) ++ subst_view by.now) }
{
    let front = put_into_rows(alloc, by, &rows.front)?;
    let back = put_into_rows(alloc, by, &rows.back)?;
    let rows = Rows::of(front, back)?;
    Listed::of(alloc, rows)?.then(alloc, &by.list)
}

/// First the second replacements, then the first ones, as one.
pub fn after(alloc: Global, first: &Subst, second: &Subst) -> Result<Subst, AllocError>
    ensures { IfOk result (λ both. subst_view both ≡ after (subst_view first.now) (subst_view second.now)) }
{
    match &second.list {
        Listed::Few(swaps) => {
            let list = few_then(alloc, first, swaps)?;
            Ok(Subst { list })
        }
        Listed::Many(rows) => {
            let list = many_then(alloc, first, rows)?;
            Ok(Subst { list })
        }
    }
}
