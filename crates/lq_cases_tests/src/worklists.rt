// The worklist, asked by one who lacks memory.
use lq_logic_predicates::Stop;
use lq_solve_fixpoint::weakening::{Asked, Chosen, Judge, Solved, solve};
use std::test::Fail;

/// Who is asked of one implication or of none, and lacks the memory to answer.
#[derive(Drop)]
struct Forgetful {
    has_one: bool,
}

impl Judge for Forgetful {
    ghost use Rattle.std.specs.Prelude.{cond, [], ◌∷◌};
    ghost use Rattle.lq_refined_types.specs.Parts.Part.{known};
    ghost use Rattle.lq_logic_predicates.specs.Formula.{truth};

    ghost instances = { λ _ u. [] };

    ghost constraints = { λ j. cond j.has_one (record { hypotheses = []; goal = known truth } ∷ []) [] };

    ghost may_stop = { λ _ at stop. Unit {0} };

    ghost keeps = { λ _ chosen. Unit {0} };

    fn ask(&mut self, _at: u64, _chosen: &Chosen) -> Result<Asked, Stop> {
        Err(Stop::Memory)
    }

    fn reset(&mut self) {}

    fn forget(&mut self, _unknown: u64) {}
}

#[test]
fn nothing_has_a_solution(rt: HostRuntime) -> Result<(), Fail> {
    let solved = solve(rt.alloc(), &mut Forgetful { has_one: false }, &[], &[], &[]);
    assert!(rt; matches!(solved, Ok(Solved::Strongest(_))));
    Ok(())
}
