// The level of a row at given values.
ghost use Rattle.std.specs.Prelude.{◌≡◌, ◌<◌, ◌≤◌, ℕ, unsigned_abs, IfOk, IfErr};
ghost use Rattle.lq_logic_rows.specs.Difference.{IsDifference, TermsBelow};
ghost use Rattle.lq_logic_rows.specs.Near.{IsNear};
ghost use Rattle.lq_logic_rows.specs.Seen.{AgreeOn};
ghost use Rattle.lq_logic_rows.specs.Row.{Row, Valuation, level};
ghost use Rattle.lq_logic_rows.specs.Steps.{valuation_of, HasValues, IsStep, IsFormed};
ghost use Rattle.lq_base_numbers.specs.Fractions.Past.{IsPast};
ghost use Rattle.lq_base_numbers.specs.Fractions.Value.{value_of};
ghost use Rattle.lq_logic_rows.specs.declared.limits.TheConstants.{SUM_LIMIT};

use crate::row::LinearRow;
use lq_base_numbers::fractions::{Frac, NumberPast};

/// The sum and the constant of a row at these values of its terms. The sum is formed member by member,
/// each product before its sum, and the constant is added last.
pub fn level_at(row: &LinearRow, values: &[Frac]) -> Result<Frac, NumberPast>
    requires { HasValues row.now values.now }
    ensures exact { IfOk result (λ f. value_of f ≡ level (valuation_of values.now) row.now) }
    ensures formed { IfOk result (λ _. IsFormed (valuation_of values.now) row.now) }
    ensures past { IfErr result IsPast }
    ensures step { IfErr result (λ e. IsStep (valuation_of values.now) row.now e.op (value_of e.left)
        (value_of e.right)) }
{
    let mut total = Frac::whole(0);
    for (term, coefficient) in row.parts() {
        let product = Frac::whole(*coefficient).mul(&values[*term as usize])?;
        total = total.add(&product)?;
    }
    total.add(&Frac::whole(row.constant()))
}

/// The level of a row sees the values of the row's terms alone.
pub fn level_sees_its_terms()
    ensures { (v w : Valuation) (row : Row) → AgreeOn v w row.parts → level v row ≡ level w row }
{}

/// At whole values that are no larger in size than a number below 2^126, and no farther apart, the level of a difference row whose
/// constant is no larger either is formed.
pub fn near_values_form_differences()
    ensures { (n terms : ℕ) (v : Valuation) (row : Row) → n < SUM_LIMIT → IsNear n terms v
        → IsDifference row.parts → TermsBelow terms row.parts → unsigned_abs row.constant ≤ n
        → IsFormed v row }
{}
