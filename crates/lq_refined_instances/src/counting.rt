// How many replacements of placeholders there are. Nothing is made for it but numbers, one for each scope.
ghost use Rattle.std.specs.Prelude.{◌≡◌, ◌*◌, map, slice_get, zip, IfOk, if◌then◌else◌};
ghost use Rattle.lq_text_qualifiers.specs.Faults.Shapes.{is_same};
ghost use Rattle.lq_text_qualifiers.specs.Sorting.Views.{qualifier_view, shape_view};
ghost use Rattle.lq_refined_instances.specs.Counting.{count_after, count_of, or_first, replaced_count, symbol_count};
ghost use Rattle.lq_refined_instances.specs.Instances.{told, total_count};
ghost use Rattle.lq_refined_instances.specs.Scopes.{hidden_count};
ghost use Rattle.lq_refined_instances.specs.Seen.{hidden_view, visible_view};
ghost use Rattle.lq_refined_instances.specs.Views.{scopes_view, unknowns_view};

use crate::scope::{Visible, is_same};
use crate::scopes::{Addition, Scopes};
use crate::unknowns::Unknowns;
use lq_text_qualifiers::sorting::{ScopedQualifier, Shape};
use std::alloc::{AllocError, Global};

// The count of a scope; one that isn't there is empty, as the first is.
fn count_at(counts: &[u64], scope: u64) -> u64
    ensures { result ≡ or_first (slice_get counts.now scope) counts.now }
{
    match counts.get(scope as usize) {
        Some(count) => *count,
        None => match counts.first() {
            Some(count) => *count,
            None => 0,
        },
    }
}

// One where the shapes are one.
fn one_if_same(first: Shape, second: Shape) -> u64
    ensures { result ≡ (if is_same (shape_view first) (shape_view second) then 1 else 0) }
{
    if is_same(first, second) { 1 } else { 0 }
}

// How many symbols of a shape are hidden.
fn hidden_count(shape: Shape, hidden: Option<Visible>) -> u64
    ensures { result ≡ hidden_count (shape_view shape) (hidden_view hidden) }
{
    match hidden {
        Some(visible) => one_if_same(shape, visible.shape),
        None => 0,
    }
}

// How many symbols of a shape a scope has, where its parent has so many.
fn count_after(shape: Shape, before: u64, addition: Addition) -> u64
    ensures { result ≡ count_after (shape_view shape) before (hidden_view addition.hidden)
        (visible_view addition.visible) }
{
    before
        .saturating_sub(hidden_count(shape, addition.hidden))
        .saturating_add(one_if_same(shape, addition.visible.shape))
}

// How many symbols of a shape there are in each scope.
fn symbol_counts(alloc: Global, scopes: &Scopes, shape: Shape) -> Result<Vec<u64>, AllocError>
    ensures { IfOk result (λ counts. counts.items
        ≡ map (symbol_count (shape_view shape)) (scopes_view scopes.now)) }
{
    let mut counts = Vec::new(alloc);
    counts.push(0)?;
    for addition in &scopes.additions {
        let before = count_at(&counts, addition.parent);
        counts.push(count_after(shape, before, *addition))?;
    }
    Ok(counts)
}

// The products of numbers with those at the same places.
fn products(alloc: Global, first: &[u64], second: &[u64]) -> Result<Vec<u64>, AllocError>
    ensures { IfOk result (λ counts. counts.items
        ≡ map (λ p. told (p.0 * p.1)) (zip first.now second.now)) }
{
    first
        .iter()
        .zip(second.iter())
        .map(|(one, other)| one.saturating_mul(*other))
        .collect(alloc)
}

// As many ones as there are scopes.
fn ones(alloc: Global, scopes: &Scopes) -> Result<Vec<u64>, AllocError>
    ensures { IfOk result (λ counts. counts.items ≡ map (λ _. 1) (scopes_view scopes.now)) }
{
    let mut counts = Vec::new(alloc);
    counts.push(1)?;
    for _addition in &scopes.additions {
        counts.push(1)?;
    }
    Ok(counts)
}

// How many replacements of placeholders of these shapes there are in each scope.
fn replaced_counts(
    alloc: Global,
    scopes: &Scopes,
    placeholders: &[Shape],
) -> Result<Vec<u64>, AllocError>
    ensures { IfOk result (λ counts. counts.items
        ≡ map (replaced_count (map shape_view placeholders.now)) (scopes_view scopes.now)) }
{
    let mut counts = ones(alloc, scopes)?;
    for shape in placeholders {
        let symbols = symbol_counts(alloc, scopes, *shape)?;
        counts = products(alloc, &counts, &symbols)?;
    }
    Ok(counts)
}

// How many replacements of a qualifier's placeholders there are over all unknowns.
fn count_of(
    alloc: Global,
    qualifier: &ScopedQualifier,
    unknowns: &Unknowns,
) -> Result<u64, AllocError>
    ensures { IfOk result (λ count. count
        ≡ told (count_of (qualifier_view qualifier.now) (unknowns_view unknowns.now))) }
{
    let counts = replaced_counts(alloc, &unknowns.scopes, &qualifier.placeholders)?;
    let mut total: u64 = 0;
    for unknown in &unknowns.unknowns {
        if is_same(unknown.shape, qualifier.shape) {
            total = total.saturating_add(count_at(&counts, unknown.scope));
        }
    }
    Ok(total)
}

/// How many replacements of placeholders there are over all qualifiers and unknowns, or 2^64 - 1 where there are more.
pub(crate) fn total_count(
    alloc: Global,
    qualifiers: &[ScopedQualifier],
    unknowns: &Unknowns,
) -> Result<u64, AllocError>
    ensures { IfOk result (λ count. count
        ≡ told (total_count (map qualifier_view qualifiers.now) (unknowns_view unknowns.now))) }
{
    let mut total: u64 = 0;
    for qualifier in qualifiers {
        let count = count_of(alloc, qualifier, unknowns)?;
        total = total.saturating_add(count);
    }
    Ok(total)
}
