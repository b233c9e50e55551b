// Hypotheses in their order.
ghost use Rattle.std.specs.Prelude.{◌≡◌, ◌++◌, [], ◌∷◌, length, map, reverse, slice_get, Some, IfOk, IfSome, OnOk};
ghost use Rattle.lq_refined_substitution.specs.Implications.Views.{hypotheses_left};
ghost use Rattle.lq_refined_types.specs.Parts.Assignment.{parts_under};
ghost use Rattle.lq_logic_predicates.specs.PredView.{formula_of, pred_items};
ghost use Rattle.lq_refined_substitution.specs.Substitution.Views.{part_view};
ghost use Rattle.lq_solve_fixpoint.specs.Questions.Assigned.{assignment_of};

use crate::questions::standing::add_part;
use crate::weakening::Chosen;
use lq_logic_predicates::Preds;
use lq_refined_instances::Instances;
use lq_refined_substitution::implications::Hypotheses;
use lq_refined_substitution::substitution::Part;
use std::alloc::{AllocError, Global};

/// What is left of hypotheses, from the last to the first.
fn taken<'a>(alloc: Global, left: &mut Hypotheses<'a>) -> Result<Vec<&'a Part>, AllocError>
    ensures { IfOk result (λ parts. hypotheses_left left.old ≡ reverse (map (λ p. part_view p.now) parts.items)) }
{
    let mut parts = Vec::new(alloc);
    while let Some(part) = left.take_last() {
        parts.push(part)?;
    }
    Ok(parts)
}

/// What hypotheses stand for, in their order.
pub(crate) fn hypotheses_under(
    alloc: Global,
    left: &mut Hypotheses<'_>,
    instances: &Instances,
    chosen: &Chosen,
) -> Result<Preds, AllocError>
    ensures { IfOk result (λ preds. map formula_of (pred_items preds)
        ≡ parts_under (assignment_of instances.now chosen.now) (hypotheses_left left.old)) }
{
    let mut parts = taken(alloc, left)?;
    let mut preds = Preds::new(alloc)?;
    while let Some(part) = parts.pop() {
        add_part(alloc, part, instances, chosen, &mut preds)?;
    }
    Ok(preds)
}
