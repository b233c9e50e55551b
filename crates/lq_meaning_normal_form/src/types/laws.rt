// Laws of the definitions. Nothing is run.
ghost use Rattle.lq_meaning_normal_form.specs.Types.Examples.{FunctionExample, ListExample, MatchExample, ReadsExample, RefusedExample};
ghost use Rattle.lq_meaning_normal_form.specs.Types.Laws.{MadeNamesRun, NormalFormKeepsTypes, ProgramsKeepGivenTypes, ProgramsKeepTypes, ScopedProgramsArePlain};

/// The normal form of an expression that obeys the rules of types obeys them, where made names have the types of what they are bound to,
/// and has the same type.
pub fn normal_form_keeps_types()
    ensures { NormalFormKeepsTypes }
{}

/// The same of the definitions of a program, with the types of made names that its nodes give.
pub fn programs_keep_types()
    ensures { ProgramsKeepTypes }
{}

/// The same with any types for names that give made names those of what they are bound to.
pub fn programs_keep_given_types()
    ensures { ProgramsKeepGivenTypes }
{}

/// A scoped program whose trees are as texts have them meets the premise on names of the other laws.
pub fn scoped_programs_are_plain()
    ensures { ScopedProgramsArePlain }
{}

/// The made names of a program are numbered from the first one on, in the order in which they are bound.
pub fn made_names_run()
    ensures { MadeNamesRun }
{}

/// The types of the made names of some expressions, and a normal tree that has no types.
pub fn examples()
    ensures reads { ReadsExample }
    ensures list { ListExample }
    ensures function { FunctionExample }
    ensures matched { MatchExample }
    ensures refused { RefusedExample }
{}
