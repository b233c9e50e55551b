// What equations that come visit by visit say.
ghost use Rattle.lq_types_infer.specs.Inference.Gathering.{StepsSayRules};

/// Equations that come of a program's visits, of each the rule or, for a use of a generalised definition, a copy or the definition's own type,
/// say the rules: types that obey them are a solution, with types for the other nodes, and the most general solution obeys them.
pub fn steps_say_the_rules()
    ensures { StepsSayRules }
{}
