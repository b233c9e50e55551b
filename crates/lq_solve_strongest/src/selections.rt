//! An implication under fewer instances of its unknowns has no more literals and terms, and no larger sizes.

ghost use Rattle.lq_solve_strongest.specs.Selections.Differences.{FewerAreDifferences};
ghost use Rattle.lq_solve_strongest.specs.Selections.Fewer.{SizesAreFewer, SomeAreFewer, SomeGather};
ghost use Rattle.lq_solve_strongest.specs.Selections.Small.{FewerAreSmall};

/// Each literal and each term under some instances is one with all instances in place.
pub fn some_are_fewer()
    ensures { SomeAreFewer }
{}

/// What can be gathered with all instances in place can be gathered with some of them, though its terms may come in another order.
pub fn some_can_be_gathered()
    ensures { SomeGather }
{}

/// With fewer literals and terms there are rows and variables, their sizes are small where all are, and chains are no longer.
pub fn fewer_are_small()
    ensures { FewerAreSmall }
{}

/// With fewer literals and terms the rows are difference rows where all are.
pub fn fewer_are_differences()
    ensures { FewerAreDifferences }
{}

/// The sizes of the literals' constants sum to no more under some instances.
pub fn sizes_are_fewer()
    ensures { SizesAreFewer }
{}
