// How many instances unknowns have.
ghost use Rattle.std.specs.Prelude.{◌≡◌, length, IfOk};
ghost use Rattle.lq_solve_fixpoint.specs.Questions.Assigned.{instances_in};
ghost use Rattle.lq_solve_fixpoint.specs.Weakening.Solving.{AreCounts};

use lq_refined_instances::Instances;
use std::alloc::{AllocError, Global};

/// How many instances an unknown has; none of one that isn't there.
fn count_at(instances: &Instances, unknown: usize) -> u64
    ensures { result ≡ length (instances_in instances.now unknown) }
{
    match instances.get(unknown) {
        Some(list) => list.len() as u64,
        None => 0,
    }
}

/// How many instances each unknown has.
pub(crate) fn instance_counts(alloc: Global, instances: &Instances) -> Result<Vec<u64>, AllocError>
    ensures { IfOk result (λ counts. AreCounts (instances_in instances.now) counts.items) }
{
    let mut counts = Vec::new(alloc);
    for unknown in 0..instances.len() {
        counts.push(count_at(instances, unknown))?;
    }
    Ok(counts)
}
