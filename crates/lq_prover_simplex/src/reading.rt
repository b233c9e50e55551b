// Rows as bounds of forms in lowest terms.
ghost use Rattle.std.specs.Prelude.{◌≡◌, ◌≢◌, ℕ, pos, ◌<◌, ◌^◌, false, Some, length, slice_get, All, IfOk, IfErr, OnOk, OnErr};
ghost use Rattle.lq_base_numbers.specs.Rationals.Rational.{whole, ◌*ℚ◌, neg_ℚ};
ghost use Rattle.lq_base_numbers.specs.Fractions.Value.{value_of};
ghost use Rattle.lq_prover_simplex.specs.Operations.{IsBounding, IsPastIn, IsRowRead, IsTurning, StopsIn};
ghost use Rattle.lq_logic_rows.specs.Forms.{Parts, DividesAll, FirstAbove};
ghost use Rattle.lq_logic_rows.specs.Difference.{TermsBelow};
ghost use Rattle.lq_prover_simplex.specs.Systems.{GoesOn};
ghost use Rattle.lq_prover_simplex.specs.Standing.{signed, ReadsBy};
ghost use Rattle.lq_prover_simplex.specs.Appearing.{HasGrown};
ghost use Rattle.lq_prover_simplex.specs.Configurations.{AllStay};
ghost use Rattle.lq_prover_simplex.specs.RowParts.{IsGreatest, turned_by, IsTurned, IsDivided};

use crate::basis::{Basis, Form};
use crate::error::TableauError;
use crate::row::Bound;
use lq_base_numbers::fractions::{Frac, NumOp, NumberPast, gcd, over};
use lq_logic_rows::LinearRow;
use std::alloc::{AllocError, Global};

/// The greatest common divisor of the coefficients.
fn divisor(parts: &[(u64, i128)]) -> u128
    ensures divides { DividesAll result parts.now }
    ensures greatest { IsGreatest result parts.now }
{
    let mut shared = 0;
    for (_, coefficient) in parts {
        shared = gcd(shared, coefficient.unsigned_abs());
    }
    shared
}

/// A coefficient, negated where it is turned.
fn turn_one(coefficient: i128, turned: bool) -> Result<i128, NumberPast>
    ensures exact { IfOk result (λ n. n ≡ turned_by turned coefficient) }
    ensures stop { (parts : Parts) (k term : ℕ) → slice_get parts k ≡ Some (term, coefficient)
        → IfErr result (IsPastIn (IsTurning parts)) }
{
    if !turned {
        return Ok(coefficient);
    }
    let Some(negated) = coefficient.checked_neg() else {
        return Err(NumberPast {
            left: Frac::whole(coefficient),
            right: Frac::whole(coefficient),
            op: NumOp::Neg,
        });
    };
    Ok(negated)
}

/// The parts, with their coefficients negated where they are turned.
fn turn(
    alloc: Global,
    parts: &[(u64, i128)],
    turned: bool,
) -> Result<Vec<(u64, i128)>, TableauError>
    ensures turned { IfOk result (λ made. IsTurned turned parts.now made.items) }
    ensures stop { IfErr result (StopsIn (IsTurning parts.now)) }
{
    let mut signed = Vec::new(alloc);
    for (term, coefficient) in parts {
        let coefficient = turn_one(*coefficient, turned)?;
        signed.push((*term, coefficient))?;
    }
    Ok(signed)
}

/// The greatest common divisor of parts whose first coefficient is above 0.
fn shared(parts: &[(u64, i128)]) -> u128
    requires { FirstAbove false parts.now }
    ensures divides { DividesAll result parts.now }
    ensures greatest { IsGreatest result parts.now }
    ensures some { 0 < result }
    ensures small { result < 2 ^ 127 }
{
    gcd(parts[0].1.unsigned_abs(), divisor(parts))
}

/// The parts, with their coefficients divided.
fn divided(alloc: Global, parts: &[(u64, i128)], by: u128) -> Result<Vec<(u64, i128)>, AllocError>
    requires some { 0 < by }
    requires small { by < 2 ^ 127 }
    requires divides { DividesAll by parts.now }
    ensures { IfOk result (λ made. IsDivided (pos by) parts.now made.items) }
{
    let mut divided = Vec::new(alloc);
    for (term, coefficient) in parts {
        let coefficient = over(*coefficient, by);
        divided.push((*term, coefficient))?;
    }
    Ok(divided)
}

/// A row's constant, negated unless the row is turned.
fn numerator(constant: i128, turned: bool) -> Result<Frac, NumberPast>
    ensures exact { IfOk result (λ f. signed turned (value_of f) ≡ neg_ℚ (whole constant)) }
    ensures stop { (g : ℕ) → IfErr result (IsPastIn (IsBounding constant g)) }
{
    let constant = Frac::whole(constant);
    if turned { Ok(constant) } else { constant.neg() }
}

/// The bound that a row gives: its constant, negated unless the row is turned, over the divisor.
fn bound_value(constant: i128, divisor: u128, turned: bool) -> Result<Frac, NumberPast>
    requires some { 0 < divisor }
    requires small { divisor < 2 ^ 127 }
    ensures exact { IfOk result (λ f. signed turned (whole (pos divisor) *ℚ value_of f)
        ≡ neg_ℚ (whole constant)) }
    ensures stop { IfErr result (IsPastIn (IsBounding constant divisor)) }
{
    let numerator = numerator(constant, turned)?;
    numerator.div(&Frac::whole(divisor as i128))
}

/// Whether the first coefficient is below 0.
fn is_turned(parts: &[(u64, i128)]) -> bool
    requires some { 0 < length parts.now }
    requires nonzero { All (λ part. part.1 ≢ pos 0) parts.now }
    ensures { FirstAbove result parts.now }
{
    parts[0].1 < 0
}

/// Reads a row as a bound of a variable of the basis, or as none where it has no terms. Its form is added to the basis where it
/// isn't there yet.
pub(crate) fn read(
    alloc: Global,
    basis: &mut Basis,
    row: &LinearRow,
) -> Result<Option<Bound>, TableauError>
    requires { TermsBelow basis.old.terms row.now.parts }
    ensures reads { IfOk result (λ bound. ReadsBy basis.new.forms row.now bound) }
    ensures terms { basis.new.terms ≡ basis.old.terms }
    ensures forms { GoesOn basis.old.forms basis.new.forms }
    ensures stays { AllStay basis.old basis.new }
    ensures grown { OnOk result (HasGrown basis.old.forms basis.new.forms row.now.parts) }
    ensures kept { OnErr result (basis.new ≡ basis.old) }
    ensures stop { IfErr result (StopsIn (IsRowRead basis.old row.now)) }
{
    let parts = row.parts();
    if parts.is_empty() {
        return Ok(None);
    }
    let turned = is_turned(parts);
    let made = turn(alloc, parts, turned)?;
    let divisor = shared(made.as_slice());
    let form = Form::new(divided(alloc, made.as_slice(), divisor)?);
    let value = bound_value(row.constant(), divisor, turned)?;
    let variable = basis.variable(alloc, form)?;
    Ok(Some(Bound {
        variable,
        value,
        divisor: divisor as i128,
        turned,
    }))
}
