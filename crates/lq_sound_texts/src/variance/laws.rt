// What holds of the definitions. Nothing is run.
ghost use Rattle.lq_sound_texts.specs.Variance.Covariant.{NamedProgramsAreCovariant};

/// In the definitions of datatypes of a program with whose names nothing is wrong no parameter stands left of an arrow or under `array`.
pub fn named_programs_are_covariant()
    ensures { NamedProgramsAreCovariant }
{}
