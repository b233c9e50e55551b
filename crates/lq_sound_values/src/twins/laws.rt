// Laws of the definitions. Nothing is run.
ghost use Rattle.lq_sound_values.specs.Twins.Laws.{AppliedTypesFit, TwinTypesFit};

use crate::inclusion::like_types_fit;
use crate::inhabitants::datatypes_fit;
use lq_refined_types::parts::substitutions;

/// A type has the inhabitants of its twin, in which functions name their arguments by twins; and a type with an atom for a name has those of
/// the type where the name has the atom's value.
pub fn twins_fit()
    ensures twins { TwinTypesFit }
    ensures applied { AppliedTypesFit }
{
    datatypes_fit();
    like_types_fit();
    substitutions();
}
