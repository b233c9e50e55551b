// Laws of the definitions. Nothing is run.
ghost use Rattle.lq_sound_adequacy.specs.Reflexivity.Laws.{SubtypingIsReflexive};

/// In every environment and under every assignment a type is a subtype of itself.
pub fn subtyping_is_reflexive()
    ensures { SubtypingIsReflexive }
{}
