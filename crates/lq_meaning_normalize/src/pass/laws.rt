// Laws of the definitions. Nothing is run.
ghost use Rattle.lq_meaning_normalize.specs.Pass.Rules.{PassAgrees};

/// What the pass makes of a tree that has rules at each node is its normal form, and it knows what stands as an operand and what is
/// pure as it is written.
pub fn pass_agrees()
    ensures { PassAgrees }
{}
