// Sums of combinations that are whole numbers over one denominator.
ghost use Rattle.std.specs.Prelude.{◌≡◌, ◌≢◌, ℤ, pos, ◌<◌, ◌≤◌, ◌^◌, ◌*◌, ◌+ℤ◌, ◌*ℤ◌, ◌%◌, int_div, ◌⊎◌, length, IfOk, IfErr, IfSome, IfNone};
ghost use Rattle.std.specs.Int.{◌∣◌};
ghost use Rattle.lq_base_numbers.specs.Rationals.Rational.{◌+ℚ◌, ◌*ℚ◌};
ghost use Rattle.lq_base_numbers.specs.Fractions.Value.{value_of};
ghost use Rattle.lq_logic_rows.specs.Row.{Valuation};
ghost use Rattle.lq_prover_simplex.specs.Lines.{combine, IsLine};
ghost use Rattle.lq_prover_simplex.specs.WholeLines.{whole_entries, part_variable, IsPartHead, IsPartPut, number_or_zero, AreScales, DividesParts, AreDivided};

use crate::whole::{Part, Scale, WholeLine};
use lq_base_numbers::fractions::{Frac, gcd, over};
use std::alloc::{AllocError, Global};

/// The variable at a place.
fn variable(parts: &[Part], at: usize) -> usize
    requires { at < length parts.now }
    ensures { result ≡ part_variable parts.now at }
{
    parts[at].variable
}

/// The least variable at these places of two combinations, of which one isn't read to its end.
fn least(left: &[Part], i: usize, right: &[Part], j: usize) -> usize
    requires { (i < length left.now) ⊎ (j < length right.now) }
    ensures left { i < length left.now → result ≤ part_variable left.now i }
    ensures right { j < length right.now → result ≤ part_variable right.now j }
    ensures one { ((i < length left.now) × (result ≡ part_variable left.now i))
        ⊎ ((j < length right.now) × (result ≡ part_variable right.now j)) }
{
    if i >= left.len() {
        return variable(right, j);
    }
    let first = variable(left, i);
    if j >= right.len() {
        return first;
    }
    let second = variable(right, j);
    if first <= second { first } else { second }
}

/// What a combination has of a variable at a place, and the place after it.
#[derive(Clone, Copy)]
struct Front {
    numerator: Option<i128>,
    next: usize,
}

/// The numerator at this place, if it is that of the variable.
fn head(parts: &[Part], at: usize, sought: usize) -> Front
    ensures { IsPartHead parts.now at sought result.numerator result.next }
{
    if at < parts.len() {
        let part = parts[at];
        if part.variable == sought {
            return Front {
                numerator: Some(part.numerator),
                next: at + 1,
            };
        }
    }
    Front {
        numerator: None,
        next: at,
    }
}

/// The sum of two numerators over the one denominator.
fn joined(left: Option<i128>, right: Option<i128>, scale: &Scale) -> Option<i128>
    ensures { IfSome result (λ n. n ≡ scale.now.left *ℤ number_or_zero left +ℤ scale.now.right *ℤ
        number_or_zero right) }
{
    match right {
        None => match left {
            None => Some(0),
            Some(numerator) => scale.left.checked_mul(numerator),
        },
        Some(other) => {
            let product = scale.right.checked_mul(other)?;
            match left {
                None => Some(product),
                Some(numerator) => {
                    let own = scale.left.checked_mul(numerator)?;
                    own.checked_add(product)
                }
            }
        }
    }
}

/// Adds a part, unless its numerator is 0.
fn put(parts: &mut Vec<Part>, variable: usize, numerator: i128) -> Result<(), AllocError>
    ensures { IfOk result (λ _. IsPartPut parts.old.items variable numerator parts.new.items) }
{
    if numerator != 0 {
        parts.push(Part {
            variable,
            numerator,
        })?;
    }
    Ok(())
}

/// One combination and so many times another, over the denominator of the scale, where each numerator stays within 128 bits.
fn merged(
    alloc: Global,
    left: &WholeLine,
    times: &Frac,
    right: &WholeLine,
    scale: &Scale,
) -> Result<Option<WholeLine>, AllocError>
    requires left { IsLine (whole_entries left.now) }
    requires right { IsLine (whole_entries right.now) }
    requires scales { AreScales left.now.denominator (value_of times.now) right.now.denominator scale.now }
    ensures sum { IfOk result (λ made. IfSome made (λ line. (x : Valuation)
        → combine x (whole_entries line) ≡ combine x (whole_entries left.now) +ℚ value_of times.now *ℚ
        combine x (whole_entries right.now))) }
    ensures line { IfOk result (λ made. IfSome made (λ line. IsLine (whole_entries line))) }
{
    let first = left.parts.as_slice();
    let second = right.parts.as_slice();
    let mut parts = Vec::with_capacity(alloc, first.len().max(second.len()))?;
    let mut i = 0;
    let mut j = 0;
    while i < first.len() || j < second.len() {
        let variable = least(first, i, second, j);
        let own = head(first, i, variable);
        let other = head(second, j, variable);
        i = own.next;
        j = other.next;
        let Some(numerator) = joined(own.numerator, other.numerator, scale) else {
            return Ok(None);
        };
        put(&mut parts, variable, numerator)?;
    }
    Ok(Some(WholeLine {
        parts,
        denominator: scale.denominator,
    }))
}

/// A product, where it is below 2^127.
pub(crate) fn product(a: u128, b: u128) -> Option<u128>
    ensures value { IfSome result (λ n. n ≡ a * b) }
    ensures small { IfSome result (λ n. n < 2 ^ 127) }
{
    let product = a.checked_mul(b)?;
    if product < 1 << 127 {
        Some(product)
    } else {
        None
    }
}

/// How a combination and so many times another are brought over one denominator, where that fits.
fn scale(left: u128, times: &Frac, right: u128) -> Option<Scale>
    requires left_some { 0 < left }
    requires left_small { left < 2 ^ 127 }
    requires right_some { 0 < right }
    requires right_small { right < 2 ^ 127 }
    ensures { IfSome result (λ s. AreScales left (value_of times.now) right s) }
{
    let numerator = times.numer();
    let shared = gcd(numerator.unsigned_abs(), right);
    let other = product(times.denom() as u128, right / shared)?;
    let both = gcd(left, other);
    let own = other / both;
    let denominator = product(left, own)?;
    let times = over(numerator, shared).checked_mul((left / both) as i128)?;
    Some(Scale {
        left: own as i128,
        right: times,
        denominator,
    })
}

/// A remainder. Most numbers have 64 bits.
fn remainder(a: u128, by: u128) -> u128
    requires { 0 < by }
    ensures { result ≡ a % by }
{
    if a < 1 << 64 && by < 1 << 64 {
        (a as u64 % by as u64) as u128
    } else {
        a % by
    }
}

/// What all numerators and the denominator have in common.
fn shared(parts: &[Part], denominator: u128) -> u128
    requires { 0 < denominator }
    ensures parts { DividesParts result parts.now }
    ensures denominator { result ∣ denominator }
{
    let mut shared = denominator;
    for part in parts {
        if shared == 1 {
            return 1;
        }
        let rest = remainder(part.numerator.unsigned_abs(), shared);
        if rest != 0 {
            shared = gcd(rest, shared);
        }
    }
    shared
}

/// A quotient. Most numbers have 64 bits.
fn quotient(numerator: i128, by: u128) -> i128
    requires some { 0 < by }
    requires small { by < 2 ^ 127 }
    ensures { result ≡ int_div numerator (pos by) }
{
    let size = numerator.unsigned_abs();
    if size < 1 << 63 && by < 1 << 63 {
        let quotient = (size as u64 / by as u64) as i128;
        if numerator < 0 { -quotient } else { quotient }
    } else {
        over(numerator, by)
    }
}

/// The parts, with their numerators divided.
fn divided(alloc: Global, parts: &[Part], by: u128) -> Result<Vec<Part>, AllocError>
    requires some { 0 < by }
    requires small { by < 2 ^ 127 }
    requires divides { DividesParts by parts.now }
    ensures { IfOk result (λ made. AreDivided by parts.now made.items) }
{
    let mut divided = Vec::with_capacity(alloc, parts.len())?;
    for part in parts {
        let numerator = quotient(part.numerator, by);
        divided.push(Part {
            variable: part.variable,
            numerator,
        })?;
    }
    Ok(divided)
}

/// The same combination, without what its numerators and its denominator have in common.
fn reduced(alloc: Global, line: WholeLine) -> Result<WholeLine, AllocError>
    ensures { IfOk result (λ made. whole_entries made ≡ whole_entries line) }
{
    let shared = shared(line.parts.as_slice(), line.denominator);
    if shared == 1 {
        return Ok(line);
    }
    let parts = divided(alloc, line.parts.as_slice(), shared)?;
    Ok(WholeLine {
        parts,
        denominator: line.denominator / shared,
    })
}

/// One combination and so many times another, where all numbers stay within 128 bits.
pub(crate) fn whole_sum(
    alloc: Global,
    left: &WholeLine,
    times: &Frac,
    right: &WholeLine,
) -> Result<Option<WholeLine>, AllocError>
    requires left { IsLine (whole_entries left.now) }
    requires right { IsLine (whole_entries right.now) }
    ensures sum { IfOk result (λ made. IfSome made (λ line. (x : Valuation)
        → combine x (whole_entries line) ≡ combine x (whole_entries left.now) +ℚ value_of times.now *ℚ
        combine x (whole_entries right.now))) }
    ensures line { IfOk result (λ made. IfSome made (λ line. IsLine (whole_entries line))) }
{
    let Some(scale) = scale(left.denominator, times, right.denominator) else {
        return Ok(None);
    };
    match merged(alloc, left, times, right, &scale)? {
        None => Ok(None),
        Some(line) => Ok(Some(reduced(alloc, line)?)),
    }
}
