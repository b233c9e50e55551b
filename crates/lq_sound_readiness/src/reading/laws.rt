// Laws of the definitions. Nothing is run.
ghost use Rattle.lq_sound_readiness.specs.Reading.Laws.{ReadIsTyped, ReadMeansTheSame};

/// A program in normal form runs as the program of the typing rules that it is read as, step by step.
pub fn what_is_read_means_the_same()
    ensures { ReadMeansTheSame }
{}

/// A program in normal form that obeys the rules of types is read as a program that is simply typed over its points.
pub fn what_is_read_is_typed()
    ensures { ReadIsTyped }
{}
