// What holds of the definitions.
ghost use Rattle.lq_text_scope.specs.Least.{LeastIsLeast};

/// What is told of a list of complaints is one of them, and none of them lies before it in the text or has a lower code at its place;
/// nothing is told only of none.
pub fn least_is_least()
    ensures { LeastIsLeast }
{}
