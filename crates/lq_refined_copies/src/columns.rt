// How many symbols of shapes there are in each scope of a table.
ghost use Rattle.std.specs.Prelude.{◌≡◌, length, map, IfOk, IfSome, if◌then◌else◌};
ghost use Rattle.lq_text_qualifiers.specs.Faults.Shapes.{is_same};
ghost use Rattle.lq_text_qualifiers.specs.Sorting.Views.{shape_view};
ghost use Rattle.lq_refined_instances.specs.Counting.{count_after, symbol_count};
ghost use Rattle.lq_refined_instances.specs.Scopes.{hidden_count, scope_in};
ghost use Rattle.lq_refined_instances.specs.Seen.{hidden_view, visible_view};
ghost use Rattle.lq_refined_instances.specs.Views.{scopes_view};
ghost use Rattle.lq_refined_copies.specs.Counting.{AreColumns, AreCounts, AreSteps, IsColumn, IsStep};

use crate::flattening::number_at;
use lq_refined_instances::{Addition, Scopes, Visible};
use lq_text_qualifiers::sorting::Shape;
use std::alloc::{AllocError, Global};

/// Whether two shapes are one.
pub(crate) fn is_same(first: Shape, second: Shape) -> bool
    ensures { result ≡ is_same (shape_view first) (shape_view second) }
{
    match (first, second) {
        (Shape::Int, Shape::Int) | (Shape::Bool, Shape::Bool) | (Shape::Array, Shape::Array) => {
            true
        }
        (Shape::Data(name), Shape::Data(other)) => name.0 == other.0,
        (Shape::Int, _) | (Shape::Bool, _) | (Shape::Array, _) | (Shape::Data(_), _) => false,
    }
}

/// One where the shapes are one.
pub(crate) fn one_if_same(first: Shape, second: Shape) -> u64
    ensures { result ≡ (if is_same (shape_view first) (shape_view second) then 1 else 0) }
{
    if is_same(first, second) { 1 } else { 0 }
}

// How many symbols of a shape are hidden.
fn hidden_count(shape: Shape, hidden: Option<Visible>) -> u64
    ensures { result ≡ hidden_count (shape_view shape) (hidden_view hidden) }
{
    match hidden {
        Some(visible) => one_if_same(shape, visible.shape),
        None => 0,
    }
}

// How many symbols of a shape a scope has, where its parent has so many.
fn count_after(shape: Shape, before: u64, addition: Addition) -> u64
    ensures { result ≡ count_after (shape_view shape) before (hidden_view addition.hidden)
        (visible_view addition.visible) }
{
    before
        .saturating_sub(hidden_count(shape, addition.hidden))
        .saturating_add(one_if_same(shape, addition.visible.shape))
}

// The last symbol of a scope, unless there is none, or it isn't known how many symbols it hides.
fn step_at(alloc: Global, table: &Scopes, at: u64) -> Result<Option<Addition>, AllocError>
    ensures { IfOk result (λ s. IfSome s (IsStep (scopes_view table.now) at)) }
{
    let Some(last) = table.last(at) else {
        return Ok(None);
    };
    match last.hidden {
        None => Ok(Some(last)),
        Some(hidden) => {
            let once = table.is_once(alloc, last.parent, hidden)?;
            if once {
                return Ok(Some(last));
            }
            Ok(None)
        }
    }
}

/// The last symbols of the scopes of a table.
pub(crate) fn steps_of(alloc: Global, table: &Scopes) -> Result<Vec<Option<Addition>>, AllocError>
    ensures steps { IfOk result (λ steps. AreSteps (scopes_view table.now) steps.items) }
    ensures all { IfOk result (λ steps. length steps.items ≡ length (scopes_view table.now)) }
{
    let mut steps = Vec::new(alloc);
    for at in 0..table.len() {
        let step = step_at(alloc, table, at)?;
        steps.push(step)?;
    }
    Ok(steps)
}

// How many symbols of a shape there are in a scope, counted one by one.
fn listed_count(alloc: Global, table: &Scopes, at: u64, shape: Shape) -> Result<u64, AllocError>
    ensures { IfOk result (λ n. n ≡ symbol_count (shape_view shape) (scope_in (scopes_view table.now) at)) }
{
    let symbols = table.visible(alloc, at)?;
    let mut count: u64 = 0;
    for visible in &symbols {
        count = count.saturating_add(one_if_same(shape, visible.shape));
    }
    Ok(count)
}

// How many symbols of a shape there are in a scope, where those of the earlier ones are counted.
fn symbol_count(
    alloc: Global,
    table: &Scopes,
    counts: &[u64],
    step: Option<Addition>,
    at: u64,
    shape: Shape,
) -> Result<u64, AllocError>
    requires all { length counts.now ≡ at }
    requires counts { AreCounts (shape_view shape) (scopes_view table.now) counts.now }
    requires step { IfSome step (IsStep (scopes_view table.now) at) }
    ensures { IfOk result (λ n. n ≡ symbol_count (shape_view shape) (scope_in (scopes_view table.now) at)) }
{
    match step {
        Some(addition) => {
            let before = number_at(counts, addition.parent);
            Ok(count_after(shape, before, addition))
        }
        None => listed_count(alloc, table, at, shape),
    }
}

// How many symbols of a shape there are in each scope.
fn symbol_counts(
    alloc: Global,
    table: &Scopes,
    steps: &[Option<Addition>],
    shape: Shape,
) -> Result<Vec<u64>, AllocError>
    requires all { length steps.now ≡ length (scopes_view table.now) }
    requires steps { AreSteps (scopes_view table.now) steps.now }
    ensures { IfOk result (λ counts. IsColumn (shape_view shape) (scopes_view table.now) counts.items) }
{
    let mut counts = Vec::new(alloc);
    for at in 0..table.len() {
        let step = steps[at as usize];
        let count = symbol_count(alloc, table, counts.as_slice(), step, at, shape)?;
        counts.push(count)?;
    }
    Ok(counts)
}

/// How many symbols of each of these shapes there are in each scope.
pub(crate) fn columns_of(
    alloc: Global,
    table: &Scopes,
    steps: &[Option<Addition>],
    shapes: &[Shape],
) -> Result<Vec<Vec<u64>>, AllocError>
    requires all { length steps.now ≡ length (scopes_view table.now) }
    requires steps { AreSteps (scopes_view table.now) steps.now }
    ensures { IfOk result (λ columns. AreColumns (map shape_view shapes.now) (scopes_view table.now) columns.items) }
{
    let mut columns = Vec::new(alloc);
    for shape in shapes {
        let counts = symbol_counts(alloc, table, steps, *shape)?;
        columns.push(counts)?;
    }
    Ok(columns)
}
