// Whether parts are narrow, all instances in place.
ghost use Rattle.std.specs.Prelude.{All, IfOk, IsTrue, map};
ghost use Rattle.lq_refined_instances.specs.Views.{list_view};
ghost use Rattle.lq_solve_strongest.specs.SmallForms.Narrow.{IsNarrow};
ghost use Rattle.lq_refined_types.specs.Parts.Assignment.{part_under, parts_under};
ghost use Rattle.lq_refined_types.specs.Parts.Substitution.{formula_by};
ghost use Rattle.lq_logic_predicates.specs.PredView.{formula_of};
ghost use Rattle.lq_solve_fixpoint.specs.Questions.Assigned.{instances_in};
ghost use Rattle.lq_refined_substitution.specs.Substitution.Views.{part_view, subst_view};

use crate::small_forms::is_narrow;
use lq_logic_predicates::Pred;
use lq_refined_instances::{InstanceList, Instances};
use lq_refined_substitution::substitution::{Part, Subst, substitute};
use std::alloc::{AllocError, Global};

/// Whether an instance with something put for its symbols is known to be narrow.
fn is_narrow_by(alloc: Global, instance: &Pred, by: &Subst) -> Result<bool, AllocError>
    ensures { IfOk result (λ b. IsTrue b → IsNarrow (formula_by (subst_view by.now) (formula_of instance.now))) }
{
    let made = substitute(alloc, instance, by)?;
    Ok(is_narrow(&made))
}

/// The same of all of some instances.
fn are_narrow_by(alloc: Global, list: &InstanceList, by: &Subst) -> Result<bool, AllocError>
    ensures { IfOk result (λ b. IsTrue b → All IsNarrow (map (formula_by (subst_view by.now)) (list_view list.now))) }
{
    for at in 0..list.len() {
        let Some(instance) = list.get(at) else {
            unreachable!()
        };
        let narrow = is_narrow_by(alloc, instance, by)?;
        if !narrow {
            return Ok(false);
        }
    }
    Ok(true)
}

/// Whether what a part stands for is known to be narrow, all instances in place.
pub(crate) fn is_narrow_part(
    alloc: Global,
    part: &Part,
    instances: &Instances,
) -> Result<bool, AllocError>
    ensures { IfOk result (λ b. IsTrue b → All IsNarrow (part_under (instances_in instances.now) (part_view part.now))) }
{
    match part {
        Part::Known(pred) => Ok(is_narrow(pred)),
        Part::Unknown(unknown, by) => match instances.get(*unknown as usize) {
            Some(list) => are_narrow_by(alloc, list, by),
            None => Ok(true),
        },
    }
}

/// The same of some parts.
pub(crate) fn are_narrow_parts(
    alloc: Global,
    parts: &[Part],
    instances: &Instances,
) -> Result<bool, AllocError>
    ensures { IfOk result (λ b. IsTrue b → All IsNarrow (parts_under (instances_in instances.now) (map part_view parts.now))) }
{
    for part in parts {
        let narrow = is_narrow_part(alloc, part, instances)?;
        if !narrow {
            return Ok(false);
        }
    }
    Ok(true)
}
