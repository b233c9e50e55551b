// Laws of the definitions. Nothing is run.
ghost use Rattle.lq_sound_scope.specs.Sorts.Laws.{InstancesSpeakAtSorts, PartsAreSorted};

/// Well sorted instances speak of names at their sorts.
pub fn instances_speak_at_sorts()
    ensures { InstancesSpeakAtSorts }
{}

/// Under well sorted instances the predicates of well sorted parts are well sorted.
pub fn parts_are_sorted()
    ensures { PartsAreSorted }
{}
