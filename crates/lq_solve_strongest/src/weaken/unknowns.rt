// How many unknowns there are.
ghost use Rattle.std.specs.Prelude.{◌≡◌, ◌<◌, ◌+◌, ◌⊎◌, length, map, IfOk};
ghost use Rattle.lq_refined_substitution.specs.Implications.Views.{environment_lists};
ghost use Rattle.lq_refined_types.specs.Parts.Refuting.{IsUnknown, Speak};
ghost use Rattle.lq_solve_fixpoint.specs.Questions.Assigned.{constraints_of};
ghost use Rattle.lq_solve_fixpoint.specs.Questions.Covering.{AreBelow};
ghost use Rattle.lq_refined_substitution.specs.Substitution.Views.{part_view, parts_view};
ghost use Rattle.lq_solve_strongest.specs.Weaken.Unknowns.{IsPast, IsPastEnvironments};

use lq_refined_substitution::implications::{Implication, Implications};
use lq_refined_substitution::substitution::Part;
use std::alloc::AllocError;

/// The least number past the unknown that a part is, if it is one, and no less than this one. No table has memory for an unknown of the last
/// number of 64 bits.
fn past_part(count: u64, part: &Part) -> Result<u64, AllocError>
    ensures { IfOk result (IsPast count (λ u. IsUnknown u (part_view part.now))) }
{
    match part {
        Part::Known(_) => Ok(count),
        Part::Unknown(unknown, _) => {
            let Some(past) = unknown.checked_add(1) else {
                return Err(AllocError);
            };
            Ok(count.max(past))
        }
    }
}

/// The same of some parts.
fn past_parts(count: u64, parts: &[Part]) -> Result<u64, AllocError>
    ensures { IfOk result (IsPast count (λ u. Speak u (map part_view parts.now))) }
{
    let mut past = count;
    for part in parts {
        past = past_part(past, part)?;
    }
    Ok(past)
}

/// The same of an implication, but for the hypotheses of its environment.
fn past_implication(count: u64, implication: &Implication) -> Result<u64, AllocError>
    ensures { IfOk result (IsPast count (λ u. Speak u (parts_view implication.now.left)
        ⊎ IsUnknown u (part_view implication.now.goal))) }
{
    let past = past_parts(count, implication.left.as_slice())?;
    past_part(past, &implication.goal)
}

/// The same of the hypotheses of an environment, those of an earlier one and one more.
fn past_environment(count: u64, implications: &Implications, env: u64) -> Result<u64, AllocError>
    requires { env < length (environment_lists implications.now) }
    ensures { IfOk result (λ n. IsPastEnvironments (environment_lists implications.now) env count
        → IsPastEnvironments (environment_lists implications.now) (env + 1) n) }
{
    match implications.environment(env) {
        Some((_parent, last)) => past_part(count, last),
        None => Ok(count),
    }
}

/// A number past all unknowns among the hypotheses of environments.
fn past_environments(implications: &Implications) -> Result<u64, AllocError>
    ensures { IfOk result (IsPastEnvironments (environment_lists implications.now)
        (length (environment_lists implications.now))) }
{
    let mut past = 0;
    for env in 0..implications.env_count() {
        past = past_environment(past, implications, env)?;
    }
    Ok(past)
}

/// A number past all unknowns of which implications speak.
pub(crate) fn unknown_count(implications: &Implications) -> Result<u64, AllocError>
    ensures { IfOk result (λ n. AreBelow n (constraints_of implications.now)) }
{
    let mut past = past_environments(implications)?;
    for at in 0..implications.len() {
        let Some(implication) = implications.get(at) else {
            unreachable!()
        };
        past = past_implication(past, implication)?;
    }
    Ok(past)
}
