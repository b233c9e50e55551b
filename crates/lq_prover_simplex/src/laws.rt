// What holds of a spent limit.
ghost use Rattle.std.specs.Prelude.{ℕ, ◌+◌, ◌*◌, ◌^◌, ◌≤◌, List};
ghost use Rattle.lq_logic_rows.specs.Contradiction.{Tagged};
ghost use Rattle.lq_logic_rows.specs.Row.{Row};
ghost use Rattle.lq_prover_pivots.specs.Pivots.Laws.{choose};
ghost use Rattle.lq_prover_pivots.specs.Pivots.Rows.{Variables, size};
ghost use Rattle.lq_prover_pivots.specs.Pivots.Variables.{AreVariables};
ghost use Rattle.lq_prover_simplex.specs.Table.{IsSpent};

use lq_prover_pivots::pivots::chains_are_short;

/// A limit is spent only where it is less than 3^n * C(m + n, n), for n terms and the m forms of two or more terms of the rows ever
/// handed over.
pub fn spent_limits_are_small()
    ensures own { (terms limit : ℕ) (standing : Tagged) (ever : List Row) (spent : IsSpent terms limit standing ever)
        → limit + 1 ≤ 3 ^ terms * choose (size spent.variables) terms }
    ensures any { (vs : Variables) (limit : ℕ) (standing : Tagged) (ever : List Row) → AreVariables ever vs
        → IsSpent vs.terms limit standing ever → limit + 1 ≤ 3 ^ vs.terms * choose (size vs) vs.terms }
{
    chains_are_short();
}
