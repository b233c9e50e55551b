// Laws of the definitions, and whole texts, worked out by hand. Nothing is run.
ghost use Rattle.lq_top_answers.specs.Failure.Examples.{HalfExample, LengthExample, LargeExample};
ghost use Rattle.lq_top_answers.specs.Failure.Failures.{FailuresDifferInValues, ExplanationsDifferInValues};

/// Two texts of a failure of one implication, and two explanations, are one but for the values in the lines on the points.
pub fn failures_differ_in_values()
    ensures failures { FailuresDifferInValues }
    ensures explanations { ExplanationsDifferInValues }
{}

/// Whole texts, worked out by hand.
pub fn examples()
    ensures half { HalfExample }
    ensures length { LengthExample }
    ensures large { LargeExample }
{}
