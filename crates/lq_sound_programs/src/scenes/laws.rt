// Laws of the definitions. Nothing is run.
ghost use Rattle.lq_sound_programs.specs.Scenes.Scenes.{MeasuresAreKnown};

use lq_refined_measures::values::{equations_hold, values_have_numbers};

/// Where a program's equations are those of measures with different names, whose terms ask of no field past the last one, there are numbers
/// of objects that know the lengths of arrays and the measures of values.
pub fn measures_are_known()
    ensures { MeasuresAreKnown }
{
    equations_hold();
    values_have_numbers();
}
