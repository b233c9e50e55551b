// Whether what is known proves a goal.
ghost use Rattle.std.specs.Prelude.{◌≡◌, IfOk, IsTrue, false, map, true};
ghost use Rattle.lq_refined_instances.specs.Views.{list_view};
ghost use Rattle.lq_solve_facts.specs.Facts.Known.{Hold, Keeps, readings_of};
ghost use Rattle.lq_refined_types.specs.Parts.Assignment.{all_joined, goal_under};
ghost use Rattle.lq_refined_types.specs.Parts.Flowing.{picked};
ghost use Rattle.lq_refined_types.specs.Parts.Substitution.{formula_by};
ghost use Rattle.lq_logic_predicates.specs.Points.{Meets, Point};
ghost use Rattle.lq_logic_predicates.specs.PredView.{formula_of};
ghost use Rattle.lq_logic_predicates.specs.Reading.{reading_of};
ghost use Rattle.lq_solve_fixpoint.specs.Questions.Assigned.{assignment_of};
ghost use Rattle.lq_refined_substitution.specs.Substitution.Views.{part_view, subst_view};
ghost use Rattle.lq_solve_fixpoint.specs.Weakening.Chosen.{chosen_in};

use crate::facts::Known;
use lq_logic_predicates::Pred;
use lq_refined_instances::{InstanceList, Instances};
use lq_refined_substitution::substitution::{Part, Subst, substitute};
use lq_solve_fixpoint::weakening::Chosen;
use std::alloc::{AllocError, Global};

/// Whether an instance with something put for its symbols is proved, where it is chosen.
fn proves_instance(
    alloc: Global,
    known: &mut Known,
    instance: &Pred,
    is_chosen: bool,
    by: &Subst,
) -> Result<bool, AllocError>
    ensures proved { IfOk result (λ b. IsTrue b → (p : Point) → Hold known.old p → is_chosen ≡ true
        → Meets p (reading_of false (formula_by (subst_view by.now) (formula_of instance.now))) → ⊥) }
    ensures kept { (p : Point) → Hold known.old p → Hold known.new p }
    ensures keeps { Keeps known.old known.new }
    ensures same { readings_of known.new ≡ readings_of known.old }
{
    if is_chosen {
        let made = substitute(alloc, instance, by)?;
        return Ok(known.proves(&made));
    }
    Ok(true)
}

/// Whether each chosen one of some instances is proved.
fn proves_list(
    alloc: Global,
    known: &mut Known,
    unknown: u64,
    by: &Subst,
    list: &InstanceList,
    chosen: &Chosen,
) -> Result<bool, AllocError>
    ensures proved { IfOk result (λ b. IsTrue b → (p : Point) → Hold known.old p
        → Meets p (reading_of false (all_joined (map (formula_by (subst_view by.now))
        (picked (chosen_in chosen.now unknown) 0 (list_view list.now))))) → ⊥) }
    ensures kept { (p : Point) → Hold known.old p → Hold known.new p }
    ensures keeps { Keeps known.old known.new }
    ensures same { readings_of known.new ≡ readings_of known.old }
{
    for at in 0..list.len() {
        let Some(instance) = list.get(at) else {
            unreachable!()
        };
        let is_chosen = chosen.has(unknown, at as u64);
        let proved = proves_instance(alloc, known, instance, is_chosen, by)?;
        if !proved {
            return Ok(false);
        }
    }
    Ok(true)
}

/// Whether a part as a goal is proved.
pub fn proves_part(
    alloc: Global,
    known: &mut Known,
    part: &Part,
    instances: &Instances,
    chosen: &Chosen,
) -> Result<bool, AllocError>
    ensures proved { IfOk result (λ b. IsTrue b → (p : Point) → Hold known.old p
        → Meets p (reading_of false (goal_under (assignment_of instances.now chosen.now) (part_view part.now))) → ⊥) }
    ensures kept { (p : Point) → Hold known.old p → Hold known.new p }
    ensures keeps { Keeps known.old known.new }
    ensures same { readings_of known.new ≡ readings_of known.old }
{
    match part {
        Part::Known(pred) => Ok(known.proves(pred)),
        Part::Unknown(unknown, by) => match instances.get(*unknown as usize) {
            Some(list) => proves_list(alloc, known, *unknown, by, list, chosen),
            None => Ok(true),
        },
    }
}
