// The instances of scopes and shapes.
ghost use Rattle.lq_logic_predicates.specs.Formula.{Formula};
ghost use Rattle.std.specs.Prelude.{List, false, ◌≡◌, ◌<◌, ◌≤◌, ◌⊎◌, ◌∷◌, [], fold, map, IfOk, IfErr, OnOk};
ghost use Rattle.lq_text_qualifiers.specs.Sorting.Views.{qualifier_view, shape_view};
ghost use Rattle.lq_refined_instances.specs.Instances.{all_instances_of, instances_of, made_of, of_shape, replacement_count, told, total_count};
ghost use Rattle.lq_refined_instances.specs.Kept.{kept};
ghost use Rattle.lq_refined_instances.specs.Scopes.{scope_in};
ghost use Rattle.lq_refined_instances.specs.Shaped.{AreListed};
ghost use Rattle.lq_refined_instances.specs.Views.{instances_view, list_view, measure_name, scope_view, scopes_view, unknowns_view};
ghost use Rattle.std.specs.List.{flat_map};
ghost use Rattle.lq_refined_instances.specs.declared.finding.QualError.TheVariants.{Memory, InstancesPast};

use crate::counting::total_count;
use crate::lists::{InstanceList, Instances};
use crate::made::instance_for;
use crate::replacing::replacements;
use crate::scope::{Scope, is_same};
use crate::scopes::Scopes;
use crate::symbols::{SymbolLists, lists_at, nearer, no_symbols};
use crate::unknowns::{Unknown, Unknowns};
use lq_text_qualifiers::sorting::{ScopedMeasure, ScopedQualifier, Shape};
use std::alloc::{AllocError, Global};
use thiserror::Error;

/// How many replacements there may be.
const LIMIT: u64 = 262_144;

/// Why there are no instances.
#[derive(Clone, Copy, Debug, PartialEq, Eq, Error)]
pub enum QualError {
    /// There are so many replacements of placeholders, or 2^64 - 1 where there are more.
    #[error("count {0}")]
    InstancesPast(u64),
    #[error("out of memory")]
    Memory,
}

impl From<AllocError> for QualError {
    ghost from_gives = { λ _ e. e ≡ Memory };

    fn from(_: AllocError) -> Self {
        QualError::Memory
    }
}

// The instances of a qualifier behind those that are there.
fn add_instances(
    alloc: Global,
    measures: &[ScopedMeasure],
    qualifier: &ScopedQualifier,
    scopes: &Scopes,
    symbols: &SymbolLists,
    list: &mut InstanceList,
) -> Result<(), AllocError>
    requires { AreListed (scope_in (scopes_view scopes.now) symbols.now.scope) symbols.now.lists.items }
    ensures { OnOk result (list_view list.new ≡ kept (list_view list.old)
        (made_of (map measure_name measures.now) (scope_in (scopes_view scopes.now) symbols.now.scope)
        (qualifier_view qualifier.now))) }
{
    let row = replacements(alloc, scopes, symbols, &qualifier.placeholders)?;
    for replacement in &row {
        let instance = instance_for(alloc, measures, replacement, &qualifier.predicate)?;
        list.add(instance)?;
    }
    Ok(())
}

// The instances of one scope and shape.
fn list_of(
    alloc: Global,
    qualifiers: &[ScopedQualifier],
    measures: &[ScopedMeasure],
    scopes: &Scopes,
    symbols: &SymbolLists,
    shape: Shape,
) -> Result<InstanceList, AllocError>
    requires { AreListed (scope_in (scopes_view scopes.now) symbols.now.scope) symbols.now.lists.items }
    ensures { IfOk result (λ list. list_view list ≡ instances_of (map measure_name measures.now)
        (map qualifier_view qualifiers.now) (scope_in (scopes_view scopes.now) symbols.now.scope)
        (shape_view shape)) }
{
    let mut list = InstanceList::new(alloc);
    for qualifier in qualifiers {
        if is_same(shape, qualifier.shape) {
            add_instances(alloc, measures, qualifier, scopes, symbols, &mut list)?;
        }
    }
    Ok(list)
}

// Whether a qualifier is of this shape.
fn has_shape(qualifiers: &[ScopedQualifier], shape: Shape) -> bool
    ensures { result ≡ false → of_shape (map qualifier_view qualifiers.now) (shape_view shape) ≡ [] }
{
    for qualifier in qualifiers {
        if is_same(shape, qualifier.shape) {
            return true;
        }
    }
    false
}

// The instances of one scope of a table and one shape. Symbols are listed only where there are qualifiers of the shape.
fn list_at(
    alloc: Global,
    qualifiers: &[ScopedQualifier],
    measures: &[ScopedMeasure],
    scopes: &Scopes,
    unknown: Unknown,
    known: &SymbolLists,
) -> Result<InstanceList, AllocError>
    requires { AreListed (scope_in (scopes_view scopes.now) known.now.scope) known.now.lists.items }
    ensures { IfOk result (λ list. list_view list ≡ instances_of (map measure_name measures.now)
        (map qualifier_view qualifiers.now) (scope_in (scopes_view scopes.now) unknown.scope)
        (shape_view unknown.shape)) }
{
    if !has_shape(qualifiers, unknown.shape) {
        return Ok(InstanceList::new(alloc));
    }
    let symbols = lists_at(alloc, scopes, unknown.scope, known)?;
    let list = list_of(alloc, qualifiers, measures, scopes, &symbols, unknown.shape)?;
    Ok(list)
}

// The instances of each unknown.
fn lists_of(
    alloc: Global,
    qualifiers: &[ScopedQualifier],
    measures: &[ScopedMeasure],
    unknowns: &Unknowns,
) -> Result<Instances, AllocError>
    ensures { IfOk result (λ all. instances_view all ≡ all_instances_of (map measure_name measures.now)
        (map qualifier_view qualifiers.now) (unknowns_view unknowns.now)) }
{
    let scopes = &unknowns.scopes;
    let mut known = no_symbols(alloc, qualifiers)?;
    let mut lists = Vec::new(alloc);
    for unknown in &unknowns.unknowns {
        known = nearer(alloc, scopes, unknown.scope, known)?;
        let list = list_at(alloc, qualifiers, measures, scopes, *unknown, &known)?;
        lists.push(list)?;
    }
    Ok(Instances { lists })
}

// Refuses more replacements than there may be.
fn bounded(
    alloc: Global,
    qualifiers: &[ScopedQualifier],
    unknowns: &Unknowns,
) -> Result<(), QualError>
    ensures within { OnOk result
        (total_count (map qualifier_view qualifiers.now) (unknowns_view unknowns.now) ≤ 262144) }
    ensures past { let count = total_count (map qualifier_view qualifiers.now) (unknowns_view unknowns.now)
        in IfErr result (λ e. (e ≡ Memory) ⊎ ((262144 < count) × (e ≡ InstancesPast (told count)))) }
{
    let count = total_count(alloc, qualifiers, unknowns)?;
    if count > LIMIT {
        return Err(QualError::InstancesPast(count));
    }
    Ok(())
}

/// The instances of each unknown: of the qualifiers of its shape, in the order of the file, all replacements of the placeholders by symbols
/// of their shapes in its scope, the first placeholder varying slowest; equal ones once, at the first place.
pub fn all_instances(
    alloc: Global,
    qualifiers: &[ScopedQualifier],
    measures: &[ScopedMeasure],
    unknowns: &Unknowns,
) -> Result<Instances, QualError>
    ensures made { IfOk result (λ all. instances_view all ≡ all_instances_of (map measure_name measures.now)
        (map qualifier_view qualifiers.now) (unknowns_view unknowns.now)) }
    // There are instances only where there are no more replacements than the limit.
    ensures within { OnOk result
        (total_count (map qualifier_view qualifiers.now) (unknowns_view unknowns.now) ≤ 262144) }
    // Where it isn't want of memory there are more, and they are counted.
    ensures past { let count = total_count (map qualifier_view qualifiers.now) (unknowns_view unknowns.now)
        in IfErr result (λ e. (e ≡ Memory) ⊎ ((262144 < count) × (e ≡ InstancesPast (told count)))) }
{
    bounded(alloc, qualifiers, unknowns)?;
    Ok(lists_of(alloc, qualifiers, measures, unknowns)?)
}

// One unknown of this scope.
fn alone(alloc: Global, scope: &Scope, shape: Shape) -> Result<Unknowns, AllocError>
    ensures { IfOk result (λ u. unknowns_view u ≡ (scope_view scope.now, shape_view shape) ∷ []) }
{
    let mut scopes = Scopes::new(alloc)?;
    let mut last = 0;
    for visible in &scope.items {
        last = scopes.add(last, *visible)?;
    }
    let unknowns = vec![in alloc; Unknown { scope: last, shape }]?;
    Ok(Unknowns { scopes, unknowns })
}

// The only list.
fn only(alloc: Global, all: Instances) -> InstanceList
    ensures { (list : List Formula) → instances_view all ≡ list ∷ [] → list_view result ≡ list }
{
    let mut lists = all.lists;
    match lists.pop() {
        Some(list) => list,
        None => InstanceList::new(alloc),
    }
}

/// The instances of one scope and shape.
pub fn instances(
    alloc: Global,
    qualifiers: &[ScopedQualifier],
    measures: &[ScopedMeasure],
    scope: &Scope,
    shape: Shape,
) -> Result<InstanceList, QualError>
    ensures made { IfOk result (λ list. list_view list ≡ instances_of (map measure_name measures.now)
        (map qualifier_view qualifiers.now) (scope_view scope.now) (shape_view shape)) }
    ensures within { OnOk result (replacement_count (map qualifier_view qualifiers.now)
        (scope_view scope.now) (shape_view shape) ≤ 262144) }
    ensures past { let count = replacement_count (map qualifier_view qualifiers.now) (scope_view scope.now)
        (shape_view shape)
        in IfErr result (λ e. (e ≡ Memory) ⊎ ((262144 < count) × (e ≡ InstancesPast (told count)))) }
{
    let unknowns = alone(alloc, scope, shape)?;
    bounded(alloc, qualifiers, &unknowns)?;
    let all = lists_of(alloc, qualifiers, measures, &unknowns)?;
    Ok(only(alloc, all))
}
