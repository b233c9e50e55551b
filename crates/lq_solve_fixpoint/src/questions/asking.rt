// The closed implication that an implication is.
ghost use Rattle.std.specs.Prelude.{◌≡◌, map, slice_get, None, IfOk, IfNone, IfSome};
ghost use Rattle.lq_refined_types.specs.Parts.Assignment.{all_joined, goal_under, joined};
ghost use Rattle.lq_logic_predicates.specs.Formula.{conjunction};
ghost use Rattle.lq_logic_predicates.specs.PredView.{formula_of, implication_of};
ghost use Rattle.lq_refined_substitution.specs.Substitution.Views.{part_view};
ghost use Rattle.lq_solve_fixpoint.specs.Questions.Assigned.{assignment_of, closed_under, constraints_of};

use crate::questions::hypotheses::hypotheses_under;
use crate::questions::standing::add_instances;
use crate::weakening::Chosen;
use lq_logic_predicates::{Closed, Pred, Preds};
use lq_refined_instances::Instances;
use lq_refined_substitution::implications::Implications;
use lq_refined_substitution::substitution::Part;
use std::alloc::{AllocError, Global};

/// Both of two predicates.
fn both(alloc: Global, left: Pred, right: &Pred) -> Result<Pred, AllocError>
    ensures { IfOk result (λ made. formula_of made ≡ conjunction (formula_of left) (formula_of right.now)) }
{
    Ok(Pred::And(Box::new(alloc, left)?, Box::new(alloc, right.copy(alloc)?)?))
}

/// A predicate and all of some others, nested to the left.
fn join(alloc: Global, first: &Pred, rest: &[Pred]) -> Result<Pred, AllocError>
    ensures { IfOk result (λ made. formula_of made ≡ joined (formula_of first.now) (map formula_of rest.now)) }
{
    let mut made = first.copy(alloc)?;
    for pred in rest {
        made = both(alloc, made, pred)?;
    }
    Ok(made)
}

/// All of some predicates, nested to the left.
fn all_of(alloc: Global, preds: &[Pred]) -> Result<Pred, AllocError>
    ensures { IfOk result (λ made. formula_of made ≡ all_joined (map formula_of preds.now)) }
{
    match preds.split_first() {
        Some((first, rest)) => join(alloc, first, rest),
        None => Ok(Pred::True),
    }
}

/// What a part stands for as a goal.
fn goal_of(
    alloc: Global,
    goal: &Part,
    instances: &Instances,
    chosen: &Chosen,
) -> Result<Pred, AllocError>
    ensures { IfOk result (λ made. formula_of made
        ≡ goal_under (assignment_of instances.now chosen.now) (part_view goal.now)) }
{
    match goal {
        Part::Known(pred) => pred.copy(alloc),
        Part::Unknown(unknown, by) => {
            let mut preds = Preds::new(alloc)?;
            add_instances(alloc, *unknown, by, instances, chosen, &mut preds)?;
            all_of(alloc, preds.as_slice())
        }
    }
}

/// An implication where each unknown stands for its chosen instances: as a hypothesis for each of them, as the goal for their conjunction.
pub fn closed_implication(
    alloc: Global,
    implications: &Implications,
    at: u32,
    instances: &Instances,
    chosen: &Chosen,
) -> Result<Option<Closed>, AllocError>
    ensures some { IfOk result (λ made. IfSome made (λ closed. IfSome (slice_get (constraints_of implications.now) at)
        (λ k. implication_of closed ≡ closed_under (assignment_of instances.now chosen.now) k))) }
    ensures none { IfOk result (λ made. IfNone made (slice_get (constraints_of implications.now) at ≡ None)) }
{
    let Some(implication) = implications.get(at as usize) else {
        return Ok(None);
    };
    let mut left = implications.hypotheses(at);
    let hypotheses = hypotheses_under(alloc, &mut left, instances, chosen)?;
    let goal = goal_of(alloc, &implication.goal, instances, chosen)?;
    Ok(Some(Closed { hypotheses, goal }))
}
