// Sums and differences of whole numbers, refused past 128 bits.
ghost use Rattle.std.specs.Prelude.{◌≡◌, ◌≤◌, ◌+ℤ◌, ◌-ℤ◌, ℕ, FitsSigned, IfOk, IfErr};
ghost use Rattle.std.specs.Int.{w128};
ghost use Rattle.lq_prover_differences.specs.Stops.{PastBy};
ghost use Rattle.lq_logic_rows.specs.declared.limits.TheConstants.{SUM_LIMIT};

use lq_base_numbers::fractions::{Frac, NumOp, NumberPast};
use lq_logic_rows::LinearStop;

/// The sum of two whole numbers.
pub(crate) fn sum(left: i128, right: i128) -> Result<i128, LinearStop>
    ensures value { IfOk result (λ n. n ≡ left +ℤ right) }
    ensures stop { IfErr result (λ stop. (n : ℕ) → (¬ (FitsSigned w128 (left +ℤ right)) → SUM_LIMIT ≤ n)
        → PastBy n stop) }
{
    let Some(total) = left.checked_add(right) else {
        return Err(LinearStop::Number(NumberPast {
            left: Frac::whole(left),
            right: Frac::whole(right),
            op: NumOp::Add,
        }));
    };
    Ok(total)
}

/// The difference of two whole numbers.
pub(crate) fn difference(left: i128, right: i128) -> Result<i128, LinearStop>
    ensures value { IfOk result (λ n. n ≡ left -ℤ right) }
    ensures stop { IfErr result (λ stop. (n : ℕ) → (¬ (FitsSigned w128 (left -ℤ right)) → SUM_LIMIT ≤ n)
        → PastBy n stop) }
{
    let Some(total) = left.checked_sub(right) else {
        return Err(LinearStop::Number(NumberPast {
            left: Frac::whole(left),
            right: Frac::whole(right),
            op: NumOp::Sub,
        }));
    };
    Ok(total)
}
