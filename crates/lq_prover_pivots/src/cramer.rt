//! The entries of a configuration by Cramer's rule: one denominator for all, and sizes of at most k! * c^k.

ghost use Rattle.lq_prover_pivots.specs.Pivots.Example.{variables, rows, after};
ghost use Rattle.lq_prover_pivots.specs.Pivots.Configurations.{IsConfiguration};
ghost use Rattle.lq_prover_pivots.specs.Cramer.Entries.{EntriesAreQuotients, IsSized};

/// One whole number, not 0, makes each entry whole, and all of these are of size at most k! * c^k.
pub fn entries_are_quotients()
    ensures { EntriesAreQuotients }
{}

/// There are variables and a configuration of which the law speaks.
pub fn some_configuration_is_sized()
    ensures sized { IsSized variables 1 1 }
    ensures configuration { IsConfiguration variables rows after }
{}
