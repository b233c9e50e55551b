// How many replacements of placeholders there are. Nothing is made for it but numbers.
ghost use Rattle.std.specs.Prelude.{◌≡◌, ◌<◌, ◌≤◌, ◌⊎◌, length, map, List, IfErr, IfOk, OnOk, if◌then◌else◌};
ghost use Rattle.lq_text_qualifiers.specs.Faults.Shapes.{is_same, Shape};
ghost use Rattle.lq_text_qualifiers.specs.Sorting.Views.{qualifier_view, shape_view};
ghost use Rattle.lq_refined_instances.specs.Counting.{count_of, replaced_count};
ghost use Rattle.lq_refined_instances.specs.Instances.{told, total_count};
ghost use Rattle.lq_refined_instances.specs.Scopes.{scope_in, Scope};
ghost use Rattle.lq_refined_instances.specs.declared.finding.QualError.TheVariants.{Memory, InstancesPast};
ghost use Rattle.lq_refined_copies.specs.Counting.{AreColumns, AreSteps};
ghost use Rattle.lq_refined_copies.specs.Patterns.{AreInner};
ghost use Rattle.lq_refined_copies.specs.Runs.{run_view, IsInside};
ghost use Rattle.lq_refined_copies.specs.Views.{patterns_of, shared_view, table_of};

use crate::columns::{columns_of, is_same, steps_of};
use crate::flattening::number_at;
use crate::patterns::{Inner, all_inner, pattern_count};
use crate::unknowns::{Run, SharedUnknowns};
use lq_refined_instances::{Addition, QualError, Unknown};
use lq_text_qualifiers::sorting::ScopedQualifier;
use std::alloc::{AllocError, Global};

/// How many replacements there may be.
const LIMIT: u64 = 262_144;

// How many replacements of placeholders there are in a scope.
fn replaced_count(columns: &[Vec<u64>], scope: u64) -> u64
    ensures { (ss : List Shape) (all : List Scope) → AreColumns ss all columns.now
        → result ≡ replaced_count ss (scope_in all scope) }
{
    let mut count: u64 = 1;
    for index in 0..columns.len() {
        count = count.saturating_mul(number_at(&columns[index], scope));
    }
    count
}

// How many there are at an unknown.
fn one_count(qualifier: &ScopedQualifier, columns: &[Vec<u64>], unknown: Unknown) -> u64
    ensures { (all : List Scope) → AreColumns (map shape_view qualifier.now.placeholders.items) all columns.now → result
        ≡ (if is_same (shape_view unknown.shape) (shape_view qualifier.now.shape)
        then replaced_count (map shape_view qualifier.now.placeholders.items) (scope_in all unknown.scope) else 0) }
{
    if is_same(unknown.shape, qualifier.shape) {
        return replaced_count(columns, unknown.scope);
    }
    0
}

// How many there are at the unknowns of a run.
fn run_count(
    shared: &SharedUnknowns,
    qualifier: &ScopedQualifier,
    columns: &[Vec<u64>],
    inner: &[Inner],
    run: Run,
) -> u64
    requires inside { IsInside (table_of shared.now) (patterns_of shared.now) run }
    requires columns { AreColumns (map shape_view qualifier.now.placeholders.items) (table_of shared.now) columns.now }
    requires inner { AreInner (qualifier_view qualifier.now) shared.now.patterns.items inner.now }
    ensures { result ≡ told (count_of (qualifier_view qualifier.now)
        (run_view (table_of shared.now) (patterns_of shared.now) run)) }
{
    match run {
        Run::One(unknown) => one_count(qualifier, columns, unknown),
        Run::Copies { pattern, scope } => {
            let at = pattern as usize;
            pattern_count(qualifier, columns, &inner[at], scope)
        }
    }
}

// How many there are of a qualifier over all unknowns.
fn count_of(
    alloc: Global,
    shared: &SharedUnknowns,
    steps: &[Option<Addition>],
    qualifier: &ScopedQualifier,
) -> Result<u64, AllocError>
    requires all { length steps.now ≡ length (table_of shared.now) }
    requires steps { AreSteps (table_of shared.now) steps.now }
    ensures { IfOk result (λ n. n ≡ told (count_of (qualifier_view qualifier.now) (shared_view shared.now))) }
{
    let columns = columns_of(alloc, &shared.scopes, steps, &qualifier.placeholders)?;
    let inner = all_inner(alloc, qualifier, &shared.patterns)?;
    let mut total: u64 = 0;
    for run in &shared.runs {
        total = total.saturating_add(run_count(shared, qualifier, &columns, &inner, *run));
    }
    Ok(total)
}

// How many there are over all qualifiers and unknowns, or 2^64 - 1 where there are more.
fn total_count(
    alloc: Global,
    shared: &SharedUnknowns,
    qualifiers: &[ScopedQualifier],
) -> Result<u64, AllocError>
    ensures { IfOk result (λ n. n ≡ told (total_count (map qualifier_view qualifiers.now) (shared_view shared.now))) }
{
    let steps = steps_of(alloc, &shared.scopes)?;
    let mut total: u64 = 0;
    for qualifier in qualifiers {
        let count = count_of(alloc, shared, &steps, qualifier)?;
        total = total.saturating_add(count);
    }
    Ok(total)
}

impl SharedUnknowns {
    /// Refuses more replacements than there may be, 262,144, counted over all qualifiers and unknowns.
    pub fn bounded(&self, alloc: Global, qualifiers: &[ScopedQualifier]) -> Result<(), QualError>
        ensures within { OnOk result
            (total_count (map qualifier_view qualifiers.now) (shared_view self.now) ≤ 262144) }
        // Where it isn't want of memory there are more, and they are counted.
        ensures past { let count = total_count (map qualifier_view qualifiers.now) (shared_view self.now)
            in IfErr result (λ e. (e ≡ Memory) ⊎ ((262144 < count) × (e ≡ InstancesPast (told count)))) }
    {
        let count = total_count(alloc, self, qualifiers)?;
        if count > LIMIT {
            return Err(QualError::InstancesPast(count));
        }
        Ok(())
    }
}
