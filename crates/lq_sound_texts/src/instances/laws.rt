// Laws of qualifiers and their instances. Nothing is run.
ghost use Rattle.lq_sound_texts.specs.Instances.Laws.{InstancesAreSorted, InstancesAreWellSorted, QualifiersAreSorted};

use lq_sound_scope::sorts::instances_speak_at_sorts;
use lq_text_qualifiers::sorting::qualifiers_become;

/// In qualifiers of a text that are without complaints each variable has the shape that its place asks for.
pub fn qualifiers_are_sorted()
    ensures { QualifiersAreSorted }
{
    qualifiers_become();
}

/// Whatever is chosen of the instances of such qualifiers speaks of the names of the unknowns' scopes at their sorts.
pub fn instances_are_sorted()
    ensures { InstancesAreSorted }
{
    instances_speak_at_sorts();
}

/// It is well sorted over these names.
pub fn instances_are_well_sorted()
    ensures { InstancesAreWellSorted }
{}
