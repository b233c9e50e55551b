// Laws of the definitions. Nothing is run.
ghost use Rattle.lq_sound_values.specs.Instantiation.Laws.{ClosedTypesFit, InstancedNamesOutside, InstancedTypesFit, InstancedTypesOn, InstancesAreThere};

use crate::inclusion::like_types_fit;
use crate::inhabitants::datatypes_fit;

/// A type without type variables has the same inhabitants whatever closed types are put for variables; and a type with refined types for its
/// variables has those of the type at the closed types that these make, with unit for a variable that has none of them.
pub fn instances_fit()
    ensures closed { ClosedTypesFit }
    ensures instanced { InstancedTypesFit }
    ensures there { InstancesAreThere }
{
    datatypes_fit();
    like_types_fit();
}

/// A type over some symbols stays so with types over these for its variables; and its functions name their arguments by no names but those of
/// it and of these.
pub fn instances_stay()
    ensures symbols { InstancedTypesOn }
    ensures names { InstancedNamesOutside }
{}
