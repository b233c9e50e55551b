// The first implication with a literal that can't be gathered.
ghost use Rattle.std.specs.Prelude.{◌≡◌, ◌<◌, length, slice_get, IfOk, IfSome, IfNone};
ghost use Rattle.lq_logic_predicates.specs.PredView.{formula_of, implication_of};
ghost use Rattle.lq_solve_fixpoint.specs.Questions.Assigned.{closed_under, constraints_of, instances_in};
ghost use Rattle.lq_solve_fixpoint.specs.Weakening.Chosen.{chosen_in};
ghost use Rattle.lq_solve_strongest.specs.Selections.Fewer.{HasAll};
ghost use Rattle.lq_solve_strongest.specs.Weaken.Gathering.{AreGathered, IsFirstUngathered, IsGatheredAt, IsPastAt};

use crate::gathering::all_fit;
use crate::weaken::counts::instance_counts;
use lq_logic_predicates::{Closed, Pred};
use lq_prover_proof_tree::literals::first_past;
use lq_refined_instances::Instances;
use lq_refined_substitution::implications::Implications;
use lq_solve_fixpoint::questions::closed_implication;
use lq_solve_fixpoint::weakening::Chosen;
use std::alloc::{AllocError, Global};

/// All instances, as a choice.
fn all_chosen(alloc: Global, instances: &Instances) -> Result<Chosen, AllocError>
    ensures { IfOk result (λ all. HasAll (instances_in instances.now) (chosen_in all)) }
{
    let counts = instance_counts(alloc, instances)?;
    Chosen::all(alloc, &counts)
}

/// The closed implication at an index, all instances in place.
fn whole_at(
    alloc: Global,
    implications: &Implications,
    at: u32,
    instances: &Instances,
    all: &Chosen,
) -> Result<Closed, AllocError>
    requires there { at < length (constraints_of implications.now) }
    requires all { HasAll (instances_in instances.now) (chosen_in all.now) }
    ensures { IfOk result (λ closed. IfSome (slice_get (constraints_of implications.now) at)
        (λ k. implication_of closed ≡ closed_under (instances_in instances.now) k)) }
{
    match closed_implication(alloc, implications, at, instances, all) {
        Ok(Some(closed)) => Ok(closed),
        Ok(None) => unreachable!(),
        Err(AllocError) => Err(AllocError),
    }
}

/// The first predicate of the implication at an index with a literal that can't be gathered.
fn past_at(
    alloc: Global,
    implications: &Implications,
    at: u32,
    instances: &Instances,
    all: &Chosen,
) -> Result<Option<Pred>, AllocError>
    requires there { at < length (constraints_of implications.now) }
    requires all { HasAll (instances_in instances.now) (chosen_in all.now) }
    ensures some { IfOk result (λ found. IfSome found (λ pred. IsPastAt (instances_in instances.now)
        (constraints_of implications.now) at (formula_of pred))) }
    ensures none { IfOk result (λ found. IfNone found (IsGatheredAt (instances_in instances.now)
        (constraints_of implications.now) at)) }
{
    let closed = whole_at(alloc, implications, at, instances, all)?;
    first_past(alloc, &closed)
}

/// The first implication with a literal that can't be gathered, all instances in place, and its first predicate with such a literal; None
/// exactly where each literal of each implication can be gathered. Where numbers are small, that is known by one look at each hypothesis.
pub fn first_ungathered(
    alloc: Global,
    implications: &Implications,
    instances: &Instances,
) -> Result<Option<(u64, Pred)>, AllocError>
    ensures some { IfOk result (λ found. IfSome found (λ f. IsFirstUngathered (instances_in instances.now)
        (constraints_of implications.now) f.0 (formula_of f.1))) }
    ensures none { IfOk result (λ found. IfNone found (AreGathered (instances_in instances.now)
        (constraints_of implications.now))) }
{
    let fits = all_fit(alloc, implications, instances)?;
    if fits {
        return Ok(None);
    }
    let all = all_chosen(alloc, instances)?;
    for at in 0..implications.len() as u32 {
        match past_at(alloc, implications, at, instances, &all)? {
            Some(pred) => return Ok(Some((at as u64, pred))),
            None => {}
        }
    }
    Ok(None)
}
