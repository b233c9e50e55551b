// Laws of the definitions. Nothing is run.
ghost use Rattle.lq_sound_scope.specs.Operations.Laws.{NamesAreKept};

/// Operations on types keep of which names types speak.
pub fn names_are_kept()
    ensures { NamesAreKept }
{}
