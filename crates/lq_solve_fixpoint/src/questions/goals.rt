// The unknowns that goals are.
ghost use Rattle.std.specs.Prelude.{◌≡◌, IfOk};
ghost use Rattle.lq_solve_fixpoint.specs.Weakening.Index.{AreGoals, goal_unknown};
ghost use Rattle.lq_solve_fixpoint.specs.Questions.Assigned.{constraints_of};
ghost use Rattle.lq_refined_substitution.specs.Substitution.Views.{part_view};

use lq_refined_substitution::implications::Implications;
use lq_refined_substitution::substitution::Part;
use std::alloc::{AllocError, Global};

/// The unknown that a goal is, if it is one.
fn unknown_of(goal: &Part) -> Option<u64>
    ensures { result ≡ goal_unknown (part_view goal.now) }
{
    match goal {
        Part::Known(_) => None,
        Part::Unknown(unknown, _) => Some(*unknown),
    }
}

/// For each implication the unknown of its goal, and None for a demand.
pub fn goal_unknowns(
    alloc: Global,
    implications: &Implications,
) -> Result<Vec<Option<u64>>, AllocError>
    ensures { IfOk result (λ goals. AreGoals (constraints_of implications.now) goals.items) }
{
    let mut goals = Vec::new(alloc);
    for at in 0..implications.len() {
        let Some(implication) = implications.get(at) else {
            unreachable!()
        };
        goals.push(unknown_of(&implication.goal))?;
    }
    Ok(goals)
}
