// Laws of the definitions. Nothing is run.
ghost use Rattle.lq_refined_rules.specs.Obligations.Laws.{ObligationsAreImplications, ObligationsAreShaped};

/// The implications of a program are those of its obligations, in their order.
pub fn obligations_are_implications()
    ensures { ObligationsAreImplications }
{}

/// Of a program that is ready, both types of each subtyping have one simple type.
pub fn obligations_are_shaped()
    ensures { ObligationsAreShaped }
{}
