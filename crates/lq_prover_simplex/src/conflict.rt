// The multipliers of a conflict.
ghost use Rattle.std.specs.Prelude.{◌≡◌, ℕ, pos, IfOk, IfErr};
ghost use Rattle.std.specs.Int.Signed.{◌<ℤ◌};
ghost use Rattle.lq_base_numbers.specs.Rationals.Rational.{whole, ◌*ℚ◌};
ghost use Rattle.lq_base_numbers.specs.Fractions.Value.{value_of};
ghost use Rattle.lq_logic_rows.specs.Contradiction.{IsContradiction};
ghost use Rattle.lq_prover_simplex.specs.Operations.{IsExplained, IsPastIn, IsShared, StopsIn};
ghost use Rattle.lq_prover_simplex.specs.Standing.{scale_of, standing_of, multipliers_of};
ghost use Rattle.lq_prover_simplex.specs.Conflicts.{toward, negates, Names, IsKept};

use crate::error::TableauError;
use crate::limits::{Broken, Limit, Limits, blocking, opposite};
use crate::line::Line;
use crate::row::{Bound, Standing};
use lq_base_numbers::fractions::{Frac, NumberPast};
use lq_logic_rows::Side;
use std::alloc::Global;

/// Whether the quotient of a factor and the divisor has to be negated.
fn is_negated(side: Side, turned: bool) -> bool
    ensures { result ≡ negates side turned }
{
    match side {
        Side::Lower => turned,
        Side::Upper => !turned,
    }
}

/// The multiplier of a bound's row that makes it this factor times the variable, or for the upper side the factor negated.
fn multiplier(factor: &Frac, bound: &Bound, side: Side) -> Result<Frac, NumberPast>
    requires { pos 0 <ℤ bound.now.divisor }
    ensures exact { IfOk result (λ f. value_of f *ℚ scale_of bound.now ≡ toward side (value_of factor.now)) }
    ensures stop { IfErr result (IsPastIn (IsShared (value_of factor.now) (whole bound.now.divisor))) }
{
    let quotient = factor.div(&Frac::whole(bound.divisor))?;
    if is_negated(side, bound.turned) {
        quotient.neg()
    } else {
        Ok(quotient)
    }
}

/// The tag of a bound's row, and its multiplier.
fn share(
    rows: &[Standing],
    limit: &Limit,
    factor: &Frac,
    side: Side,
) -> Result<(u64, Frac), NumberPast>
    requires given { (tag : ℕ) × Names rows.now tag limit.now }
    requires divides { pos 0 <ℤ limit.now.bound.divisor }
    ensures names { IfOk result (λ m. Names rows.now m.0 limit.now) }
    ensures exact { IfOk result (λ m. value_of m.1 *ℚ scale_of limit.now.bound
        ≡ toward side (value_of factor.now)) }
    ensures stop { IfErr result (IsPastIn (IsShared (value_of factor.now) (whole limit.now.bound.divisor))) }
{
    let multiplier = multiplier(factor, &limit.bound, side)?;
    Ok((rows[limit.row].tag, multiplier))
}

/// The tags and multipliers of the rows that keep a variable from its bound: the row of the bound, and that of each entry of its line.
pub(crate) fn explain(
    alloc: Global,
    rows: &[Standing],
    limits: &Limits,
    broken: &Broken,
    line: &Line,
) -> Result<Vec<(u64, Frac)>, TableauError>
    requires { IsKept rows.now limits.now broken.now line.now }
    ensures contradicts { IfOk result (λ found. IsContradiction (standing_of rows.now)
        (multipliers_of found.items)) }
    ensures stop { IfErr result (StopsIn (IsExplained rows.now line.now)) }
{
    let mut found = Vec::new(alloc);
    let own = share(rows, &broken.limit, &Frac::whole(1), opposite(broken.side))?;
    found.push(own)?;
    for at in 0..line.len() {
        let entry = line.entry(at);
        let side = blocking(&entry.factor, broken.side);
        if let Some(limit) = limits.at(side, entry.variable) {
            let other = share(rows, &limit, &entry.factor, broken.side)?;
            found.push(other)?;
        }
    }
    Ok(found)
}
