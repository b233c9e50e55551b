// What counts of replacements for the names of a scope.
ghost use Rattle.std.specs.Prelude.{◌≡◌, ◌+◌, ◌<◌, [], ◌∷◌, ◌++◌, if◌then◌else◌, length, slice_get, IfOk, OnOk, Some};
ghost use Rattle.lq_refined_types.specs.Parts.Substitution.{Subst as Replacements, is_new, restricted};
ghost use Rattle.lq_refined_substitution.specs.Substitution.Listed.{rows_items};
ghost use Rattle.lq_refined_substitution.specs.Substitution.Restricting.{picked_view, rest_kept, seen_before};
ghost use Rattle.lq_refined_substitution.specs.declared.substitution.swaps.Swap.{Swap};
ghost use Rattle.lq_refined_substitution.specs.Substitution.Views.{run_swaps, runs_view, scopes_view, subst_view, swap_view, swaps_view};

use crate::substitution::atoms::Atom;
use crate::substitution::listed::Listed;
use crate::substitution::rows::Rows;
use crate::substitution::runs::{Run, add_copies, add_run};
use crate::substitution::scopes::Scopes;
use crate::substitution::seen::Seen;
use crate::substitution::substs::Subst;
use crate::substitution::swaps::Swap;
use lq_logic_predicates::Symbol;
use std::alloc::{AllocError, Global};

// Symbols for which there is a term already, and such for which there is a predicate.
#[derive(Drop)]
struct Done {
    terms: Seen,
    flags: Seen,
}

// Whether a symbol is in the scope of an unknown and nothing was put for it yet. It is noted then.
fn is_first(
    scopes: &Scopes,
    unknown: u64,
    seen: &mut Seen,
    symbol: Symbol,
) -> Result<bool, AllocError>
    ensures new { IfOk result (λ b. b ≡ is_new (scopes_view scopes.now unknown) (seen_before seen.old) symbol) }
    ensures seen { IfOk result (λ b. seen_before seen.new ≡ (if b then symbol ∷ seen_before seen.old else seen_before seen.old)) }
{
    if !scopes.has(unknown, symbol) {
        return Ok(false);
    }
    if seen.has(symbol) {
        return Ok(false);
    }
    seen.add(symbol)?;
    Ok(true)
}

// Whether a replacement counts behind those that were looked at.
fn is_counted(
    scopes: &Scopes,
    unknown: u64,
    done: &mut Done,
    swap: &Swap,
) -> Result<bool, AllocError>
    ensures { IfOk result (λ b. (σ : Replacements) → rest_kept (scopes_view scopes.now unknown) done.old (swap_view swap.now ∷ σ)
        ≡ (if b then swap_view swap.now ∷ rest_kept (scopes_view scopes.now unknown) done.new σ
        else rest_kept (scopes_view scopes.now unknown) done.new σ)) }
{
    match &swap.atom {
        Atom::Term(_) => is_first(scopes, unknown, &mut done.terms, swap.symbol),
        Atom::Pred(_) => is_first(scopes, unknown, &mut done.flags, swap.symbol),
    }
}

// What is kept of the first replacements of a row: all of them, or copies.
#[derive(Drop)]
enum Picked {
    Whole,
    Copies(Vec<Swap>),
}

// The same with the next replacement, or without it.
fn pick(
    alloc: Global,
    picked: Picked,
    swaps: &[Swap],
    at: usize,
    is_kept: bool,
) -> Result<Picked, AllocError>
    requires { at < length swaps.now }
    ensures { IfOk result (λ made. (s : Swap) → slice_get swaps.now at ≡ Some s → picked_view made swaps.now (at + 1)
        ≡ (if is_kept then picked_view picked swaps.now at ++ swap_view s ∷ [] else picked_view picked swaps.now at)) }
{
    match picked {
        Picked::Whole => {
            if is_kept {
                return Ok(Picked::Whole);
            }
            let mut made = Vec::new(alloc);
            add_copies(alloc, &mut made, &swaps[..at])?;
            Ok(Picked::Copies(made))
        }
        Picked::Copies(mut made) => {
            if !is_kept {
                return Ok(Picked::Copies(made));
            }
            made.push(swaps[at].copy(alloc)?)?;
            Ok(Picked::Copies(made))
        }
    }
}

// Adds what counts of a row, which is shared where all does.
fn add_counted(
    alloc: Global,
    scopes: &Scopes,
    unknown: u64,
    done: &mut Done,
    made: &mut Vec<Run>,
    run: &Run,
) -> Result<(), AllocError>
    ensures { OnOk result ((σ : Replacements) → runs_view made.old.items
        ++ rest_kept (scopes_view scopes.now unknown) done.old (swaps_view (run_swaps run.now) ++ σ)
        ≡ runs_view made.new.items ++ rest_kept (scopes_view scopes.now unknown) done.new σ) }
{
    let swaps = run.as_slice();
    let mut picked = Picked::Whole;
    for at in 0..swaps.len() {
        let is_kept = is_counted(scopes, unknown, done, &swaps[at])?;
        picked = pick(alloc, picked, swaps, at, is_kept)?;
    }
    match picked {
        Picked::Whole => {
            made.push(run.share()?)?;
            Ok(())
        }
        Picked::Copies(kept) => add_run(alloc, made, kept),
    }
}

// What counts of rows.
fn counted_rows(
    alloc: Global,
    scopes: &Scopes,
    unknown: u64,
    done: &mut Done,
    runs: &[Run],
) -> Result<Vec<Run>, AllocError>
    ensures { IfOk result (λ made. (σ : Replacements)
        → rest_kept (scopes_view scopes.now unknown) done.old (runs_view runs.now ++ σ)
        ≡ runs_view made.items ++ rest_kept (scopes_view scopes.now unknown) done.new σ) }
{
    let mut made = Vec::new(alloc);
    for run in runs {
        add_counted(alloc, scopes, unknown, done, &mut made, run)?;
    }
    Ok(made)
}

// What counts of few replacements.
fn counted_swaps(
    alloc: Global,
    scopes: &Scopes,
    unknown: u64,
    done: &mut Done,
    swaps: &[Swap],
) -> Result<Vec<Swap>, AllocError>
    ensures { IfOk result (λ made. (σ : Replacements)
        → rest_kept (scopes_view scopes.now unknown) done.old (swaps_view swaps.now ++ σ)
        ≡ swaps_view made.items ++ rest_kept (scopes_view scopes.now unknown) done.new σ) }
{
    let mut made = Vec::with_capacity(alloc, swaps.len())?;
    for swap in swaps {
        let is_kept = is_counted(scopes, unknown, done, swap)?;
        add_where(alloc, &mut made, swap, is_kept)?;
    }
    made.shrink_to_fit();
    Ok(made)
}

// Adds a copy of a replacement that is kept.
fn add_where(
    alloc: Global,
    made: &mut Vec<Swap>,
    swap: &Swap,
    is_kept: bool,
) -> Result<(), AllocError>
    ensures { OnOk result (swaps_view made.new.items
        ≡ (if is_kept then swaps_view made.old.items ++ swap_view swap.now ∷ [] else swaps_view made.old.items)) }
{
    if is_kept {
        made.push(swap.copy(alloc)?)?;
    }
    Ok(())
}

// What counts of few replacements, where nothing was met yet.
fn few_counted(
    alloc: Global,
    scopes: &Scopes,
    unknown: u64,
    swaps: &[Swap],
) -> Result<Vec<Swap>, AllocError>
    ensures { IfOk result (λ made. swaps_view made.items ≡ restricted (scopes_view scopes.now unknown) (swaps_view swaps.now)) }
{
    let mut done = Done {
        terms: Seen::new(alloc),
        flags: Seen::new(alloc),
    };
    counted_swaps(alloc, scopes, unknown, &mut done, swaps)
}

// The same of many.
fn many_counted(
    alloc: Global,
    scopes: &Scopes,
    unknown: u64,
    rows: &Rows,
) -> Result<Rows, AllocError>
    ensures { IfOk result (λ made. swaps_view (rows_items made)
        ≡ restricted (scopes_view scopes.now unknown) (swaps_view (rows_items rows.now))) }
{
    let mut done = Done {
        terms: Seen::new(alloc),
        flags: Seen::new(alloc),
    };
    let front = counted_rows(alloc, scopes, unknown, &mut done, &rows.front)?;
    let back = counted_rows(alloc, scopes, unknown, &mut done, &rows.back)?;
    Rows::of(front, back)
}

/// Of replacements, what counts for the names of an unknown's scope: for each the first term and the first predicate. Rows of which all
/// counts are shared.
pub fn restricted(
    alloc: Global,
    scopes: &Scopes,
    unknown: u64,
    by: &Subst,
) -> Result<Subst, AllocError>
    ensures { IfOk result (λ made. subst_view made
        ≡ restricted (scopes_view scopes.now unknown) (subst_view by.now)) }
{
    match &by.list {
        Listed::Few(swaps) => {
            let made = few_counted(alloc, scopes, unknown, swaps)?;
            Ok(Subst {
                list: Listed::Few(made),
            })
        }
        Listed::Many(rows) => {
            let made = many_counted(alloc, scopes, unknown, rows)?;
            let list = Listed::of(alloc, made)?;
            Ok(Subst { list })
        }
    }
}
