// How many replacements of a qualifier's placeholders there are over the copies of a pattern.
ghost use Rattle.std.specs.Prelude.{◌≡◌, ◌∷◌, [], false, true, length, map, All, IfOk, List};
ghost use Rattle.lq_text_qualifiers.specs.Faults.Shapes.{is_same, Shape};
ghost use Rattle.lq_text_qualifiers.specs.Sorting.Views.{asked_view, qualifier_view, shape_view};
ghost use Rattle.lq_refined_instances.specs.Counting.{count_of, replaced_count};
ghost use Rattle.lq_refined_instances.specs.Instances.{told};
ghost use Rattle.lq_refined_instances.specs.Scopes.{scope_in, Scope};
ghost use Rattle.lq_refined_instances.specs.Views.{scopes_view, unknown_view, unknowns_view};
ghost use Rattle.lq_refined_copies.specs.Completed.{all_completed, completed};
ghost use Rattle.lq_refined_copies.specs.Counting.{completed_count, mark_of, AreColumns, AreMarks, AreSmall, IsSmall};
ghost use Rattle.lq_refined_copies.specs.Groups.{groups_view};
ghost use Rattle.lq_refined_instances.specs.declared.unknowns.Unknowns.{Unknowns};
ghost use Rattle.lq_refined_copies.specs.Patterns.{AreInner, IsInner};

use crate::columns::{columns_of, is_same, one_if_same, steps_of};
use crate::flattening::number_at;
use crate::groups::{Group, groups_of};
use crate::marks::marks_of;
use lq_refined_instances::{Unknown, Unknowns};
use lq_text_qualifiers::sorting::{ScopedQualifier, Shape};
use std::alloc::{AllocError, Global};

/// A pattern's scopes for a qualifier: whether an unknown has its shape, and if so, how many symbols of each placeholder's shape each scope
/// has, the marks, and the unknowns by groups of those that are alike.
#[derive(Drop)]
pub(crate) struct Inner {
    is_asked: bool,
    columns: Vec<Vec<u64>>,
    marks: Vec<Option<Shape>>,
    groups: Vec<Group>,
}

// How many symbols of a shape a completed scope has, where so many are outside and so many in the pattern's scope.
fn completed_count(shape: Shape, outer: u64, inner: u64, mark: Option<Shape>) -> u64
    ensures { result ≡ completed_count (shape_view shape) outer inner (asked_view mark) }
{
    match mark {
        Some(mark) => outer.saturating_add(inner.saturating_sub(one_if_same(shape, mark))),
        None => inner,
    }
}

// The mark of a scope; one that isn't there has none.
fn mark_of(marks: &[Option<Shape>], at: u64) -> Option<Shape>
    ensures { (all : List Scope) → AreMarks all marks.now → asked_view result ≡ mark_of (scope_in all at) }
{
    match marks.get(at as usize) {
        Some(mark) => *mark,
        None => None,
    }
}

// How many replacements of placeholders there are in a completed scope.
fn replaced_count(shapes: &[Shape], outer: &[Vec<u64>], inner: &Inner, scope: u64, at: u64) -> u64
    requires outer { length outer.now ≡ length shapes.now }
    requires inner { length inner.now.columns.items ≡ length shapes.now }
    ensures { (all table : List Scope) → AreColumns (map shape_view shapes.now) all outer.now
        → AreColumns (map shape_view shapes.now) table inner.now.columns.items → AreMarks table inner.now.marks.items
        → IsSmall (scope_in table at) → result
        ≡ replaced_count (map shape_view shapes.now) (completed (scope_in all scope) (scope_in table at)) }
{
    let mark = mark_of(&inner.marks, at);
    let columns = inner.columns.as_slice();
    let mut count: u64 = 1;
    for index in 0..shapes.len() {
        let outside = number_at(&outer[index], scope);
        let inside = number_at(&columns[index], at);
        count = count.saturating_mul(completed_count(shapes[index], outside, inside, mark));
    }
    count
}

// How many replacements there are at a copy of an unknown.
fn copy_count(
    qualifier: &ScopedQualifier,
    outer: &[Vec<u64>],
    inner: &Inner,
    scope: u64,
    unknown: Unknown,
) -> u64
    requires outer { length outer.now ≡ length qualifier.now.placeholders.items }
    requires inner { length inner.now.columns.items ≡ length qualifier.now.placeholders.items }
    ensures { (all table : List Scope) → AreColumns (map shape_view qualifier.now.placeholders.items) all outer.now
        → AreColumns (map shape_view qualifier.now.placeholders.items) table inner.now.columns.items
        → AreMarks table inner.now.marks.items → IsSmall (scope_in table unknown.scope) → result
        ≡ told (count_of (qualifier_view qualifier.now)
        (all_completed (scope_in all scope) (unknown_view table unknown ∷ []))) }
{
    if is_same(unknown.shape, qualifier.shape) {
        return replaced_count(&qualifier.placeholders, outer, inner, scope, unknown.scope);
    }
    0
}

// How many there are at the copies of unknowns.
fn copies_count(qualifier: &ScopedQualifier, outer: &[Vec<u64>], inner: &Inner, scope: u64) -> u64
    requires outer { length outer.now ≡ length qualifier.now.placeholders.items }
    requires inner { length inner.now.columns.items ≡ length qualifier.now.placeholders.items }
    ensures { (all table : List Scope) → AreColumns (map shape_view qualifier.now.placeholders.items) all outer.now
        → AreColumns (map shape_view qualifier.now.placeholders.items) table inner.now.columns.items
        → AreMarks table inner.now.marks.items → AreSmall table → result
        ≡ told (count_of (qualifier_view qualifier.now) (all_completed (scope_in all scope) (groups_view table inner.now.groups.items))) }
{
    let mut total: u64 = 0;
    for group in &inner.groups {
        let count = copy_count(qualifier, outer, inner, scope, group.unknown);
        total = total.saturating_add(count.saturating_mul(group.times));
    }
    total
}

/// How many there are at the copies of a pattern.
pub(crate) fn pattern_count(
    qualifier: &ScopedQualifier,
    outer: &[Vec<u64>],
    inner: &Inner,
    scope: u64,
) -> u64
    requires outer { length outer.now ≡ length qualifier.now.placeholders.items }
    requires inner { inner.now.is_asked ≡ true → length inner.now.columns.items ≡ length qualifier.now.placeholders.items }
    ensures { (all : List Scope) (p : Unknowns) → IsInner (qualifier_view qualifier.now) p inner.now
        → AreColumns (map shape_view qualifier.now.placeholders.items) all outer.now → result
        ≡ told (count_of (qualifier_view qualifier.now) (all_completed (scope_in all scope) (unknowns_view p))) }
{
    if inner.is_asked {
        return copies_count(qualifier, outer, inner, scope);
    }
    0
}

// Whether an unknown is of this shape.
fn has_shape(unknowns: &[Unknown], shape: Shape) -> bool
    ensures { result ≡ false → All (λ u. is_same (shape_view u.shape) (shape_view shape) ≡ false) unknowns.now }
{
    for unknown in unknowns {
        if is_same(unknown.shape, shape) {
            return true;
        }
    }
    false
}

// A pattern's scopes, counted for a qualifier.
fn asked(
    alloc: Global,
    qualifier: &ScopedQualifier,
    pattern: &Unknowns,
) -> Result<Inner, AllocError>
    ensures { IfOk result (λ i. IsInner (qualifier_view qualifier.now) pattern.now i) }
{
    let steps = steps_of(alloc, &pattern.scopes)?;
    let columns = columns_of(alloc, &pattern.scopes, &steps, &qualifier.placeholders)?;
    let marks = marks_of(alloc, &pattern.scopes)?;
    let groups = groups_of(alloc, &pattern.unknowns)?;
    Ok(Inner {
        is_asked: true,
        columns,
        marks,
        groups,
    })
}

// A pattern's scopes, as a qualifier asks for them.
fn inner_of(
    alloc: Global,
    qualifier: &ScopedQualifier,
    pattern: &Unknowns,
) -> Result<Inner, AllocError>
    ensures { IfOk result (λ i. IsInner (qualifier_view qualifier.now) pattern.now i) }
{
    let is_asked = has_shape(&pattern.unknowns, qualifier.shape);
    if is_asked {
        return asked(alloc, qualifier, pattern);
    }
    Ok(Inner {
        is_asked: false,
        columns: Vec::new(alloc),
        marks: Vec::new(alloc),
        groups: Vec::new(alloc),
    })
}

/// The scopes of all patterns, as a qualifier asks for them.
pub(crate) fn all_inner(
    alloc: Global,
    qualifier: &ScopedQualifier,
    patterns: &[Unknowns],
) -> Result<Vec<Inner>, AllocError>
    ensures { IfOk result (λ all. AreInner (qualifier_view qualifier.now) patterns.now all.items) }
{
    let mut all = Vec::new(alloc);
    for index in 0..patterns.len() {
        let inner = inner_of(alloc, qualifier, &patterns[index])?;
        all.push(inner)?;
    }
    Ok(all)
}
