// Laws of the definitions. Nothing is run.
ghost use Rattle.lq_sound_scope.specs.Splits.Bound.{HypothesesAreOver, SplitsAreBound};

use crate::operations::names_are_kept;

/// Each implication of a subtyping of types over the names of its environment speaks of names of its own environment, and of v.
pub fn splits_are_bound()
    ensures { SplitsAreBound }
{
    names_are_kept();
}

/// The hypotheses of an environment over its names, with guards that speak of more names, speak of these.
pub fn hypotheses_are_over()
    ensures { HypothesesAreOver }
{
    names_are_kept();
}
