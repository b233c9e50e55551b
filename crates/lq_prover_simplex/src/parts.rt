// What whole numbers over one denominator stand for.
ghost use Rattle.std.specs.Prelude.{◌≡◌, ◌≢◌, ℕ, pos, ◌<◌, ◌^◌, length, slice_get, Some, IfOk, IfSome, IfNone};
ghost use Rattle.lq_base_numbers.specs.Rationals.Rational.{whole, ratio};
ghost use Rattle.lq_base_numbers.specs.Fractions.Value.{value_of};
ghost use Rattle.lq_prover_simplex.specs.Lines.{factor_of, IsLine};
ghost use Rattle.lq_prover_simplex.specs.WholeLines.{whole_entries, owns_part, part_variable, HasPart};

use crate::line::Entry;
use crate::whole::{Part, WholeLine};
use lq_base_numbers::fractions::Frac;
use std::alloc::{AllocError, Global};

/// A numerator over a denominator. It always fits.
fn fraction(numerator: i128, denominator: u128) -> Frac
    requires some { 0 < denominator }
    requires small { denominator < 2 ^ 127 }
    ensures { value_of result ≡ ratio numerator denominator }
{
    match Frac::whole(numerator).div(&Frac::whole(denominator as i128)) {
        Ok(fraction) => fraction,
        Err(_) => unreachable!(),
    }
}

/// The variable at a place, and its factor.
pub(crate) fn entry_at(line: &WholeLine, at: usize) -> Entry
    requires { at < length (whole_entries line.now) }
    ensures { slice_get (whole_entries line.now) at ≡ Some result }
{
    let part = line.parts[at];
    Entry {
        variable: part.variable,
        factor: fraction(part.numerator, line.denominator),
    }
}

/// Whether one variable alone stands there, and it is this one.
pub(crate) fn owns_part(parts: &[Part], variable: usize) -> bool
    ensures { result ≡ owns_part parts.now variable }
{
    match parts {
        [part] => part.variable == variable,
        _ => false,
    }
}

/// The numerator of a variable, if it stands there.
fn numerator(parts: &[Part], variable: usize) -> Option<i128>
    ensures some { IfSome result (λ n. HasPart parts.now variable n) }
    ensures none { IfNone result ((j : ℕ) → j < length parts.now → part_variable parts.now j ≢ variable) }
{
    for part in parts {
        if part.variable == variable {
            return Some(part.numerator);
        }
    }
    None
}

/// The factor of a variable, if it stands there.
pub(crate) fn factor_in(line: &WholeLine, variable: usize) -> Option<Frac>
    requires { IsLine (whole_entries line.now) }
    ensures some { IfSome result (λ f. (value_of f ≡ factor_of (whole_entries line.now) variable)
        × ¬ (value_of f ≡ whole (pos 0))) }
    ensures none { IfNone result (factor_of (whole_entries line.now) variable ≡ whole (pos 0)) }
{
    match numerator(line.parts.as_slice(), variable) {
        None => None,
        Some(numerator) => Some(fraction(numerator, line.denominator)),
    }
}

/// The variables with their factors.
pub(crate) fn entries(alloc: Global, line: &WholeLine) -> Result<Vec<Entry>, AllocError>
    ensures { IfOk result (λ made. made.items ≡ whole_entries line.now) }
{
    let mut entries = Vec::new(alloc);
    for part in line.parts.as_slice() {
        entries.push(Entry {
            variable: part.variable,
            factor: fraction(part.numerator, line.denominator),
        })?;
    }
    Ok(entries)
}
