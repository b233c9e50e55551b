// What a part stands for.
ghost use Rattle.std.specs.Prelude.{◌≡◌, ◌++◌, ◌∷◌, [], map, OnOk, if◌then◌else◌};
ghost use Rattle.lq_refined_instances.specs.Views.{list_view};
ghost use Rattle.lq_refined_types.specs.Parts.Assignment.{part_under};
ghost use Rattle.lq_refined_types.specs.Parts.Flowing.{picked};
ghost use Rattle.lq_refined_types.specs.Parts.Substitution.{formula_by};
ghost use Rattle.lq_logic_predicates.specs.PredView.{formula_of, pred_items};
ghost use Rattle.lq_refined_substitution.specs.Substitution.Views.{part_view, subst_view};
ghost use Rattle.lq_solve_fixpoint.specs.Weakening.Chosen.{chosen_in};
ghost use Rattle.lq_solve_fixpoint.specs.Questions.Assigned.{assignment_of};

use crate::weakening::Chosen;
use lq_logic_predicates::{Pred, Preds};
use lq_refined_instances::{InstanceList, Instances};
use lq_refined_substitution::substitution::{Part, Subst, substitute};
use std::alloc::{AllocError, Global};

/// Adds an instance of an unknown, with something put for its symbols, where it is chosen.
fn add_chosen(
    alloc: Global,
    instance: &Pred,
    is_chosen: bool,
    by: &Subst,
    preds: &mut Preds,
) -> Result<(), AllocError>
    ensures { OnOk result (map formula_of (pred_items preds.new) ≡ map formula_of (pred_items preds.old)
        ++ (if is_chosen then formula_by (subst_view by.now) (formula_of instance.now) ∷ [] else [])) }
{
    if is_chosen {
        preds.push(substitute(alloc, instance, by)?)?;
    }
    Ok(())
}

/// Adds those of a list of instances of an unknown that are chosen, with something put for their symbols.
fn add_list(
    alloc: Global,
    unknown: u64,
    list: &InstanceList,
    by: &Subst,
    chosen: &Chosen,
    preds: &mut Preds,
) -> Result<(), AllocError>
    ensures { OnOk result (map formula_of (pred_items preds.new) ≡ map formula_of (pred_items preds.old)
        ++ map (formula_by (subst_view by.now)) (picked (chosen_in chosen.now unknown) 0 (list_view list.now))) }
{
    for at in 0..list.len() {
        let Some(instance) = list.get(at) else {
            unreachable!()
        };
        add_chosen(alloc, instance, chosen.has(unknown, at as u64), by, preds)?;
    }
    Ok(())
}

/// Adds the chosen instances of an unknown, with something put for their symbols.
pub(crate) fn add_instances(
    alloc: Global,
    unknown: u64,
    by: &Subst,
    instances: &Instances,
    chosen: &Chosen,
    preds: &mut Preds,
) -> Result<(), AllocError>
    ensures { OnOk result (map formula_of (pred_items preds.new) ≡ map formula_of (pred_items preds.old)
        ++ map (formula_by (subst_view by.now)) (assignment_of instances.now chosen.now unknown)) }
{
    match instances.get(unknown as usize) {
        Some(list) => add_list(alloc, unknown, list, by, chosen, preds),
        None => Ok(()),
    }
}

/// Adds what a part stands for as a hypothesis.
pub(crate) fn add_part(
    alloc: Global,
    part: &Part,
    instances: &Instances,
    chosen: &Chosen,
    preds: &mut Preds,
) -> Result<(), AllocError>
    ensures { OnOk result (map formula_of (pred_items preds.new) ≡ map formula_of (pred_items preds.old)
        ++ part_under (assignment_of instances.now chosen.now) (part_view part.now)) }
{
    match part {
        Part::Known(pred) => {
            preds.push(pred.copy(alloc)?)?;
            Ok(())
        }
        Part::Unknown(unknown, by) => {
            add_instances(alloc, *unknown, by, instances, chosen, preds)
        }
    }
}
