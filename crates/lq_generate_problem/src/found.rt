// Instances, found at once or behind the implications.
ghost use Rattle.std.specs.Prelude.{◌≡◌, ◌<◌, ◌≤◌, ◌⊎◌, map, IfErr, IfOk, OnOk};
ghost use Rattle.lq_refined_instances.specs.Instances.{all_instances_of, told, total_count};
ghost use Rattle.lq_refined_instances.specs.Views.{instances_view, measure_name};
ghost use Rattle.lq_refined_instances.specs.declared.finding.QualError.TheVariants.{Memory, InstancesPast};
ghost use Rattle.lq_refined_copies.specs.Views.{shared_view};
ghost use Rattle.lq_text_qualifiers.specs.Sorting.Views.{qualifier_view};
ghost use Rattle.lq_generate_problem.specs.Found.{found_list, IsFew};

use lq_refined_copies::{Run, SharedUnknowns};
use lq_refined_instances::{Instances, QualError, all_instances};
use lq_text_qualifiers::sorting::{ScopedMeasure, ScopedQualifier};
use std::alloc::{AllocError, Global};

/// The instances of unknowns; or, where some of these are copies, the unknowns, whose instances are made later.
#[derive(Drop)]
pub(crate) enum Found {
    Made(Instances),
    Later(SharedUnknowns),
}

// Whether some unknowns are copies.
fn has_copies(runs: &[Run]) -> bool {
    for run in runs {
        if let Run::Copies {
            pattern: _,
            scope: _,
        } = run
        {
            return true;
        }
    }
    false
}

// The instances of unknowns, each by itself.
fn make_all(
    alloc: Global,
    qualifiers: &[ScopedQualifier],
    measures: &[ScopedMeasure],
    unknowns: SharedUnknowns,
) -> Result<Instances, QualError>
    ensures made { IfOk result (λ all. instances_view all ≡ all_instances_of (map measure_name measures.now)
        (map qualifier_view qualifiers.now) (shared_view unknowns)) }
    ensures within { OnOk result
        (total_count (map qualifier_view qualifiers.now) (shared_view unknowns) ≤ 262144) }
    ensures past { let count = total_count (map qualifier_view qualifiers.now) (shared_view unknowns)
        in IfErr result (λ e. (e ≡ Memory) ⊎ ((262144 < count) × (e ≡ InstancesPast (told count)))) }
{
    let flat = unknowns.flat(alloc)?;
    all_instances(alloc, qualifiers, measures, &flat)
}

/// Refuses more replacements of placeholders than there may be. Where no unknown is a copy, the instances are made at once; else they are
/// counted over the patterns.
pub(crate) fn find_first(
    alloc: Global,
    qualifiers: &[ScopedQualifier],
    measures: &[ScopedMeasure],
    unknowns: SharedUnknowns,
) -> Result<Found, QualError>
    ensures found { IfOk result (λ found. found_list (map measure_name measures.now) (map qualifier_view qualifiers.now) found
        ≡ all_instances_of (map measure_name measures.now) (map qualifier_view qualifiers.now) (shared_view unknowns)) }
    ensures few { IfOk result (IsFew (map qualifier_view qualifiers.now)) }
    ensures within { OnOk result
        (total_count (map qualifier_view qualifiers.now) (shared_view unknowns) ≤ 262144) }
    ensures past { let count = total_count (map qualifier_view qualifiers.now) (shared_view unknowns)
        in IfErr result (λ e. (e ≡ Memory) ⊎ ((262144 < count) × (e ≡ InstancesPast (told count)))) }
{
    if has_copies(unknowns.runs()) {
        unknowns.bounded(alloc, qualifiers)?;
        return Ok(Found::Later(unknowns));
    }
    let all = make_all(alloc, qualifiers, measures, unknowns)?;
    Ok(Found::Made(all))
}

/// The instances, made now where they weren't before.
pub(crate) fn find_last(
    alloc: Global,
    qualifiers: &[ScopedQualifier],
    measures: &[ScopedMeasure],
    found: Found,
) -> Result<Instances, AllocError>
    requires { IsFew (map qualifier_view qualifiers.now) found }
    ensures { IfOk result (λ all. instances_view all
        ≡ found_list (map measure_name measures.now) (map qualifier_view qualifiers.now) found) }
{
    match found {
        Found::Made(all) => Ok(all),
        Found::Later(unknowns) => match make_all(alloc, qualifiers, measures, unknowns) {
            Ok(all) => Ok(all),
            Err(QualError::Memory) => Err(AllocError),
            Err(QualError::InstancesPast(_)) => unreachable!(),
        },
    }
}
