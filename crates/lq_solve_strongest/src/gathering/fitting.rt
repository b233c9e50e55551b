// Whether all implications are known to be gatherable.
ghost use Rattle.std.specs.Prelude.{length, IfOk, IsTrue};
ghost use Rattle.lq_refined_substitution.specs.Implications.Views.{implication_items};
ghost use Rattle.lq_solve_fixpoint.specs.Questions.Assigned.{constraints_of, instances_in};
ghost use Rattle.lq_solve_strongest.specs.Gathering.Fitting.{AllGather, AreNarrowImplications, IsNarrowImplication};

use crate::gathering::environments::are_narrow_environments;
use crate::gathering::parts::{are_narrow_parts, is_narrow_part};
use crate::small_forms::narrow_implications_gather;
use lq_refined_instances::Instances;
use lq_refined_substitution::implications::{Implication, Implications};
use std::alloc::{AllocError, Global};

/// Whether what an implication has besides the hypotheses of its environment is known to be narrow.
fn is_narrow_implication(
    alloc: Global,
    implication: &Implication,
    instances: &Instances,
) -> Result<bool, AllocError>
    ensures { IfOk result (λ b. IsTrue b → IsNarrowImplication (instances_in instances.now) implication.now) }
{
    let narrow = are_narrow_parts(alloc, implication.left.as_slice(), instances)?;
    if !narrow {
        return Ok(false);
    }
    is_narrow_part(alloc, &implication.goal, instances)
}

/// The same of all implications.
fn are_narrow_implications(
    alloc: Global,
    implications: &Implications,
    instances: &Instances,
) -> Result<bool, AllocError>
    ensures { IfOk result (λ b. IsTrue b → AreNarrowImplications (instances_in instances.now)
        (implication_items implications.now) (length (implication_items implications.now))) }
{
    for at in 0..implications.len() {
        let Some(implication) = implications.get(at) else {
            unreachable!()
        };
        let narrow = is_narrow_implication(alloc, implication, instances)?;
        if !narrow {
            return Ok(false);
        }
    }
    Ok(true)
}

/// Whether each literal of each implication is known to be gatherable, all instances of its unknowns in place. Each part of a hypothesis is
/// looked at once, though many implications share it.
pub fn all_fit(
    alloc: Global,
    implications: &Implications,
    instances: &Instances,
) -> Result<bool, AllocError>
    ensures { IfOk result (λ b. IsTrue b → AllGather (instances_in instances.now) (constraints_of implications.now)) }
{
    narrow_implications_gather();
    let narrow = are_narrow_environments(alloc, implications, instances)?;
    if !narrow {
        return Ok(false);
    }
    are_narrow_implications(alloc, implications, instances)
}
