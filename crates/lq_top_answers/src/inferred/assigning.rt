// The chosen instances of unknowns as an assignment.
ghost use Rattle.std.specs.Prelude.{◌≡◌, ◌∷◌, [], ◌++◌, cond, map, IfOk, OnOk};
ghost use Rattle.lq_top_answers.specs.Assignment.Views.{assignment_view};
ghost use Rattle.lq_refined_instances.specs.Views.{list_view};
ghost use Rattle.lq_refined_types.specs.Parts.Flowing.{picked};
ghost use Rattle.lq_logic_predicates.specs.PredView.{formula_of, pred_items};
ghost use Rattle.lq_solve_fixpoint.specs.Questions.Assigned.{assignment_of};
ghost use Rattle.lq_solve_fixpoint.specs.Weakening.Chosen.{chosen_in};

use crate::assignment::Assignment;
use lq_logic_predicates::{Pred, Preds};
use lq_refined_instances::{InstanceList, Instances};
use lq_solve_fixpoint::weakening::Chosen;
use std::alloc::{AllocError, Global};

// Adds an equal predicate.
fn push_copy(alloc: Global, preds: &mut Preds, pred: &Pred) -> Result<(), AllocError>
    ensures { OnOk result (map formula_of (pred_items preds.new) ≡ map formula_of (pred_items preds.old)
        ++ formula_of pred.now ∷ []) }
{
    let copied = pred.copy(alloc)?;
    preds.push(copied)?;
    Ok(())
}

// Adds an instance, if it is chosen.
fn add_if(
    alloc: Global,
    preds: &mut Preds,
    instance: &Pred,
    is_chosen: bool,
) -> Result<(), AllocError>
    ensures { OnOk result (map formula_of (pred_items preds.new) ≡ map formula_of (pred_items preds.old)
        ++ cond is_chosen (formula_of instance.now ∷ []) []) }
{
    if is_chosen {
        push_copy(alloc, preds, instance)
    } else {
        Ok(())
    }
}

// The chosen instances of an unknown.
fn chosen_of(
    alloc: Global,
    list: &InstanceList,
    chosen: &Chosen,
    unknown: u64,
) -> Result<Preds, AllocError>
    ensures { IfOk result (λ preds. map formula_of (pred_items preds)
        ≡ picked (chosen_in chosen.now unknown) 0 (list_view list.now)) }
{
    let mut preds = Preds::new(alloc)?;
    for at in 0..list.len() {
        let Some(instance) = list.get(at) else {
            unreachable!()
        };
        add_if(alloc, &mut preds, instance, chosen.has(unknown, at as u64))?;
    }
    Ok(preds)
}

/// Each unknown stands for those of its instances that are chosen.
pub fn assignment_of(
    alloc: Global,
    instances: &Instances,
    chosen: &Chosen,
) -> Result<Assignment, AllocError>
    ensures { IfOk result (λ made. assignment_view made ≡ assignment_of instances.now chosen.now) }
{
    let mut assignment = Assignment::new(alloc);
    for unknown in 0..instances.len() {
        let Some(list) = instances.get(unknown) else {
            unreachable!()
        };
        assignment.push(chosen_of(alloc, list, chosen, unknown as u64)?)?;
    }
    Ok(assignment)
}
