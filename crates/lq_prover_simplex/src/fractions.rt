// Linear combinations of variables whose factors are fractions.
ghost use Rattle.std.specs.Prelude.{◌≡◌, ◌≢◌, ℕ, pos, ◌+◌, ◌<◌, ◌≤◌, ◌⊎◌, length, IfOk, IfErr, IfSome, IfNone};
ghost use Rattle.lq_base_numbers.specs.Rationals.Rational.{whole, ◌+ℚ◌, ◌*ℚ◌};
ghost use Rattle.lq_base_numbers.specs.Fractions.Value.{value_of};
ghost use Rattle.lq_logic_rows.specs.Row.{Valuation};
ghost use Rattle.lq_logic_rows.specs.Steps.{value_or_zero};
ghost use Rattle.lq_prover_simplex.specs.Lines.{combine, factor_of, owns, IsLine, IsHead, IsPut, variable_at};
ghost use Rattle.lq_prover_simplex.specs.Operations.{IsJoining, IsLineSum, IsPastIn, StopsIn};

use crate::error::TableauError;
use crate::line::Entry;
use lq_base_numbers::fractions::{Frac, NumberPast};
use std::alloc::{AllocError, Global};

/// Equal entries.
pub(crate) fn copied(alloc: Global, entries: &[Entry]) -> Result<Vec<Entry>, AllocError>
    ensures { IfOk result (λ made. made.items ≡ entries.now) }
{
    let mut copied = Vec::new(alloc);
    for entry in entries {
        copied.push(*entry)?;
    }
    Ok(copied)
}

/// Whether a combination is one variable alone.
pub(crate) fn owns(entries: &[Entry], variable: usize) -> bool
    ensures { result ≡ owns entries.now variable }
{
    match entries {
        [entry] => entry.variable == variable,
        _ => false,
    }
}

/// The factor of a variable, if it stands there.
pub(crate) fn factor(entries: &[Entry], variable: usize) -> Option<Frac>
    requires { IsLine entries.now }
    ensures some { IfSome result (λ f. (value_of f ≡ factor_of entries.now variable)
        × ¬ (value_of f ≡ whole (pos 0))) }
    ensures none { IfNone result (factor_of entries.now variable ≡ whole (pos 0)) }
{
    for entry in entries {
        if entry.variable == variable {
            return Some(entry.factor);
        }
    }
    None
}

/// The variable at a place.
fn variable(entries: &[Entry], at: usize) -> usize
    requires { at < length entries.now }
    ensures { result ≡ variable_at entries.now at }
{
    entries[at].variable
}

/// The least variable at these places of two combinations, of which one isn't read to its end.
fn least(left: &[Entry], i: usize, right: &[Entry], j: usize) -> usize
    requires { (i < length left.now) ⊎ (j < length right.now) }
    ensures left { i < length left.now → result ≤ variable_at left.now i }
    ensures right { j < length right.now → result ≤ variable_at right.now j }
    ensures one { ((i < length left.now) × (result ≡ variable_at left.now i))
        ⊎ ((j < length right.now) × (result ≡ variable_at right.now j)) }
{
    if i >= left.len() {
        return variable(right, j);
    }
    let first = variable(left, i);
    if j >= right.len() {
        return first;
    }
    let second = variable(right, j);
    if first <= second { first } else { second }
}

/// What a combination has of a variable at a place, and the place after it.
#[derive(Clone, Copy)]
struct Front {
    factor: Option<Frac>,
    next: usize,
}

/// The factor at this place, if it is that of the variable.
fn head(entries: &[Entry], at: usize, sought: usize) -> Front
    ensures { IsHead entries.now at sought result.factor result.next }
{
    if at < entries.len() {
        let entry = entries[at];
        if entry.variable == sought {
            return Front {
                factor: Some(entry.factor),
                next: at + 1,
            };
        }
    }
    Front {
        factor: None,
        next: at,
    }
}

/// The sum of a factor, or 0, and so many times another, or 0.
fn joined(left: Option<Frac>, times: &Frac, right: Option<Frac>) -> Result<Frac, NumberPast>
    ensures exact { IfOk result (λ f. value_of f ≡ value_or_zero left +ℚ value_of times.now *ℚ value_or_zero
        right) }
    ensures stop { IfErr result (IsPastIn (IsJoining left (value_of times.now) right)) }
{
    match right {
        None => match left {
            None => Ok(Frac::whole(0)),
            Some(factor) => Ok(factor),
        },
        Some(other) => {
            let product = times.mul(&other)?;
            match left {
                None => Ok(product),
                Some(factor) => factor.add(&product),
            }
        }
    }
}

/// Adds an entry, unless its factor is 0.
fn put(entries: &mut Vec<Entry>, variable: usize, factor: Frac) -> Result<(), AllocError>
    ensures { IfOk result (λ _. IsPut entries.old.items variable factor entries.new.items) }
{
    if !factor.is_zero() {
        entries.push(Entry { variable, factor })?;
    }
    Ok(())
}

/// One combination and so many times another.
pub(crate) fn fraction_sum(
    alloc: Global,
    left: &[Entry],
    times: &Frac,
    right: &[Entry],
) -> Result<Vec<Entry>, TableauError>
    requires left { IsLine left.now }
    requires right { IsLine right.now }
    ensures sum { IfOk result (λ entries. (x : Valuation)
        → combine x entries.items ≡ combine x left.now +ℚ value_of times.now *ℚ combine x right.now) }
    ensures line { IfOk result (λ entries. IsLine entries.items) }
    ensures stop { IfErr result (StopsIn (IsLineSum left.now (value_of times.now) right.now)) }
{
    let mut entries = Vec::new(alloc);
    let mut i = 0;
    let mut j = 0;
    while i < left.len() || j < right.len() {
        let variable = least(left, i, right, j);
        let first = head(left, i, variable);
        let second = head(right, j, variable);
        i = first.next;
        j = second.next;
        let factor = joined(first.factor, times, second.factor)?;
        put(&mut entries, variable, factor)?;
    }
    Ok(entries)
}
