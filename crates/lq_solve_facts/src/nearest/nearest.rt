// Whether an implication follows from its nearest hypotheses.
ghost use Rattle.std.specs.Prelude.{◌<◌, IfOk, IsTrue, false, length};
ghost use Rattle.lq_refined_substitution.specs.Implications.Views.{hypotheses_left};
ghost use Rattle.lq_solve_facts.specs.Facts.Known.{Hold};
ghost use Rattle.lq_refined_types.specs.Parts.Assignment.{goal_under, parts_under};
ghost use Rattle.lq_logic_predicates.specs.ClosedImplication.{MeetsEach};
ghost use Rattle.lq_logic_predicates.specs.Points.{Meets, Point};
ghost use Rattle.lq_logic_predicates.specs.Reading.{reading_of};
ghost use Rattle.lq_solve_fixpoint.specs.Questions.Assigned.{assignment_of, constraints_of, instances_in};
ghost use Rattle.lq_refined_substitution.specs.Substitution.Views.{part_view};
ghost use Rattle.lq_solve_fixpoint.specs.Weakening.Chosen.{chosen_in};
ghost use Rattle.lq_solve_fixpoint.specs.Weakening.Judging.{HoldsThere};

use crate::facts::Known;
use crate::nearest::adding::add_last;
use crate::nearest::aiming::proves_part;
use lq_refined_instances::Instances;
use lq_refined_substitution::implications::{Hypotheses, Implications};
use lq_refined_substitution::substitution::Part;
use lq_solve_fixpoint::weakening::Chosen;
use std::alloc::{AllocError, Global};

/// Facts are over no more terms.
const TERMS: u64 = 256;

/// How many more hypotheses are looked at in a round.
fn more_in(round: u64) -> u64 {
    match round {
        0 => 0,
        1 => 4,
        2 => 12,
        _ => 48,
    }
}

/// Whether a goal follows from the last ones of some hypotheses: from none, then from few, and then from more and more.
fn follows_from(
    alloc: Global,
    known: &mut Known,
    left: &mut Hypotheses<'_>,
    goal: &Part,
    instances: &Instances,
    chosen: &Chosen,
) -> Result<bool, AllocError>
    ensures { IfOk result (λ b. IsTrue b → (p : Point) → Hold known.old p
        → MeetsEach p (parts_under (assignment_of instances.now chosen.now) (hypotheses_left left.old))
        → Meets p (reading_of false (goal_under (assignment_of instances.now chosen.now) (part_view goal.now))) → ⊥) }
{
    for round in 0..4 {
        let more = add_last(alloc, known, left, more_in(round), instances, chosen)?;
        let found = proves_part(alloc, known, goal, instances, chosen)?;
        if found {
            return Ok(true);
        }
        if !more {
            return Ok(false);
        }
    }
    Ok(false)
}

/// Whether an implication is known to follow from its last hypotheses under the chosen instances: by facts alone, without a choice of theirs.
pub fn follows(
    alloc: Global,
    implications: &Implications,
    at: u64,
    instances: &Instances,
    chosen: &Chosen,
    limit: u64,
) -> Result<bool, AllocError>
    requires { at < length (constraints_of implications.now) }
    ensures { IfOk result (λ b. IsTrue b → HoldsThere (instances_in instances.now) (constraints_of implications.now)
        (chosen_in chosen.now) at) }
{
    let Some(implication) = implications.get(at as usize) else {
        return Ok(false);
    };
    let mut known = Known::new(alloc, TERMS, limit)?;
    let count = implications.len();
    prove!(count <= 262144);
    let mut left = implications.hypotheses(at as u32);
    follows_from(
        alloc,
        &mut known,
        &mut left,
        &implication.goal,
        instances,
        chosen,
    )
}
