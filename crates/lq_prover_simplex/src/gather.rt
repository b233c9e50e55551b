// Fractions that are brought over one denominator.
ghost use Rattle.std.specs.Prelude.{◌≡◌, ◌<◌, ◌^◌, IfOk, IfSome};
ghost use Rattle.lq_prover_simplex.specs.WholeLines.{entries_of, whole_entries, AllDivide};

use crate::line::Entry;
use crate::merge::product;
use crate::whole::{Part, WholeLine};
use lq_base_numbers::fractions::gcd;
use std::alloc::{AllocError, Global};

/// A common multiple of the denominators, where it is below 2^127.
fn common_denominator(entries: &[Entry]) -> Option<u128>
    ensures some { IfSome result (λ d. 0 < d) }
    ensures small { IfSome result (λ d. d < 2 ^ 127) }
    ensures multiple { IfSome result (AllDivide entries.now) }
{
    let mut common = 1;
    for entry in entries {
        let denominator = entry.factor.denom() as u128;
        let shared = gcd(common, denominator);
        common = product(common, denominator / shared)?;
    }
    Some(common)
}

/// The parts that stand for the entries over this denominator, where they fit.
fn over_common(
    alloc: Global,
    entries: &[Entry],
    denominator: u128,
) -> Result<Option<Vec<Part>>, AllocError>
    requires some { 0 < denominator }
    requires small { denominator < 2 ^ 127 }
    requires multiple { AllDivide entries.now denominator }
    ensures { IfOk result (λ made. IfSome made (λ parts. (positive : 0 < denominator)
        (small : denominator < 2 ^ 127) → entries_of parts.items denominator positive small ≡ entries.now)) }
{
    let mut parts = Vec::new(alloc);
    for entry in entries {
        let times = denominator / entry.factor.denom() as u128;
        let Some(numerator) = entry.factor.numer().checked_mul(times as i128) else {
            return Ok(None);
        };
        parts.push(Part {
            variable: entry.variable,
            numerator,
        })?;
    }
    Ok(Some(parts))
}

/// The line that stands for the entries, where whole numbers over one denominator do.
pub(crate) fn gathered(alloc: Global, entries: &[Entry]) -> Result<Option<WholeLine>, AllocError>
    ensures { IfOk result (λ made. IfSome made (λ line. whole_entries line ≡ entries.now)) }
{
    let Some(denominator) = common_denominator(entries) else {
        return Ok(None);
    };
    match over_common(alloc, entries, denominator)? {
        None => Ok(None),
        Some(parts) => Ok(Some(WholeLine { parts, denominator })),
    }
}
