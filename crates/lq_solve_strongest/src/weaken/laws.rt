// What can be gathered with fewer instances.
ghost use Rattle.lq_solve_strongest.specs.Selections.Fewer.{SomeGather};
ghost use Rattle.lq_solve_strongest.specs.Weaken.Gathering.{FirstIsNot};

/// What can be gathered with all instances in place can be gathered with some of them, though its terms may come in another order. Where
/// one implication is the first that can't be gathered, not all can.
pub fn some_instances_gather()
    ensures fewer { SomeGather }
    ensures first { FirstIsNot }
{}
