//! Chains of pivots by the rule of least numbers: the definitions, and that no configuration comes twice in one.

ghost use Rattle.lq_prover_pivots.specs.Pivots.Example.{variables, rows, chain};
ghost use Rattle.lq_prover_pivots.specs.Pivots.Pivots.{IsChain};
ghost use Rattle.lq_prover_pivots.specs.Pivots.Variables.{AreVariables};
ghost use Rattle.lq_prover_pivots.specs.Pivots.Laws.{NoneTwice, AllStand, AtMostSoMany};

/// No configuration comes twice in a chain of pivots.
pub fn no_configuration_comes_twice()
    ensures { NoneTwice }
{}

/// Each free variable stands at a bound or at the value that it had at the start.
pub fn free_ones_stand()
    ensures { AllStand }
{}

/// A chain has at most 3^n * C(m + n, n) configurations, for n terms and m forms of two or more terms.
pub fn chains_are_short()
    ensures { AtMostSoMany }
{}

/// There is a chain of one pivot.
pub fn some_chain_pivots()
    ensures variables { AreVariables rows variables }
    ensures chain { IsChain variables rows rows 1 chain }
{}
