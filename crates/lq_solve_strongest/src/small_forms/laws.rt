// What can be gathered because it is narrow.
ghost use Rattle.std.specs.Prelude.{All};
ghost use Rattle.lq_logic_predicates.specs.ClosedImplication.{ClosedImplication};
ghost use Rattle.lq_logic_predicates.specs.Comparison.{CanGather};
ghost use Rattle.lq_logic_predicates.specs.Literals.{implication_literals};
ghost use Rattle.lq_solve_strongest.specs.SmallForms.Narrow.{IsNarrow};

/// Each literal of an implication between narrow predicates can be gathered, the rows for each two of its applications among them.
pub fn narrow_implications_gather()
    ensures { (i : ClosedImplication) → All IsNarrow i.hypotheses → IsNarrow i.goal → All CanGather (implication_literals i) }
{}
