// Laws of the definitions. Nothing is run.
ghost use Rattle.lq_refined_types.specs.Types.Laws.{KeepSimpleTypes, TypeAfter};

use crate::parts::substitutions;

/// Each operation on a refined type keeps its simple type, or makes of it what it makes of simple types.
pub fn simple_types_are_kept()
    ensures { KeepSimpleTypes }
{}

/// Two substitutions of a type, one after the other, are one.
pub fn chains_of_substitutions()
    ensures { TypeAfter }
{
    substitutions();
}
