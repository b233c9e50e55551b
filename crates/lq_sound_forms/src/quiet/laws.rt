// Laws of the definitions. Nothing is run.
ghost use Rattle.lq_sound_forms.specs.Quiet.Laws.{QuietCoresClose, QuietRunsAgree, QuietRunsKeepTheWorld, QuietStepsStay, RunsAgree, ValueBlocksAreQuiet};

/// Runs are determined: where an expression runs well to each of these types, its value inhabits all of them.
pub fn runs_agree()
    ensures { RunsAgree }
{}

/// A quiet expression leaves the world as it is: each step goes to a quiet expression in the same world, and so does a run to its value, of
/// one type or of many. With values for variables the expression stays quiet.
pub fn quiet_runs_keep_the_world()
    ensures steps { QuietStepsStay }
    ensures closed { QuietCoresClose }
    ensures runs { QuietRunsKeepTheWorld }
    ensures agree { QuietRunsAgree }
{}

/// A block of pure expressions, functions, tuples and constructors runs as a quiet expression, whatever values are put for its variables.
pub fn value_blocks_are_quiet()
    ensures { ValueBlocksAreQuiet }
{}
