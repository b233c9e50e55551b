// Whether the hypotheses of environments are narrow, each looked at once.
ghost use Rattle.std.specs.Prelude.{◌<◌, ◌+◌, length, IfOk, IsTrue};
ghost use Rattle.lq_refined_substitution.specs.Implications.Views.{environment_lists};
ghost use Rattle.lq_solve_fixpoint.specs.Questions.Assigned.{instances_in};
ghost use Rattle.lq_solve_strongest.specs.Gathering.Fitting.{AreNarrowEnvironments};

use crate::gathering::parts::is_narrow_part;
use lq_refined_instances::Instances;
use lq_refined_substitution::implications::Implications;
use std::alloc::{AllocError, Global};

/// Whether the last hypothesis of an environment is known to be narrow: then all of its hypotheses are where those of all earlier
/// environments are.
fn is_narrow_environment(
    alloc: Global,
    implications: &Implications,
    instances: &Instances,
    env: u64,
) -> Result<bool, AllocError>
    requires { env < length (environment_lists implications.now) }
    ensures { IfOk result (λ b. IsTrue b
        → AreNarrowEnvironments (instances_in instances.now) (environment_lists implications.now) env
        → AreNarrowEnvironments (instances_in instances.now) (environment_lists implications.now) (env + 1)) }
{
    match implications.environment(env) {
        Some((_parent, last)) => is_narrow_part(alloc, last, instances),
        None => Ok(true),
    }
}

/// Whether the hypotheses of all environments are known to be narrow.
pub(crate) fn are_narrow_environments(
    alloc: Global,
    implications: &Implications,
    instances: &Instances,
) -> Result<bool, AllocError>
    ensures { IfOk result (λ b. IsTrue b → AreNarrowEnvironments (instances_in instances.now)
        (environment_lists implications.now) (length (environment_lists implications.now))) }
{
    for env in 0..implications.env_count() {
        let narrow = is_narrow_environment(alloc, implications, instances, env)?;
        if !narrow {
            return Ok(false);
        }
    }
    Ok(true)
}
