// Difference rows over six terms, by a generator of numbers.
ghost use Rattle.std.specs.Prelude.{◌<◌, IfOk};
ghost use Rattle.lq_logic_rows.specs.Difference.{IsDifference, TermsBelow};

use lq_logic_rows::LinearRow;
use std::alloc::{AllocError, Global};

/// A number of the generator, below another.
pub(crate) fn draw(seed: &mut u64, below: u64) -> u64
    requires { 0 < below }
    ensures { result < below }
{
    *seed = seed
        .wrapping_mul(6364136223846793005)
        .wrapping_add(1442695040888963407);
    (*seed >> 33) % below
}

/// The row over one term.
fn single(
    alloc: Global,
    term: u64,
    up: bool,
    constant: i128,
    equal: bool,
) -> Result<LinearRow, AllocError>
    requires { term < 6 }
    ensures difference { IfOk result (λ row. IsDifference row.parts) }
    ensures below { IfOk result (λ row. TermsBelow 6 row.parts) }
{
    let mut parts = Vec::new(alloc);
    parts.push((term, if up { 1 } else { -1 }))?;
    Ok(LinearRow::new(parts, constant, equal))
}

/// The row over two terms.
fn pair(
    alloc: Global,
    low: u64,
    high: u64,
    up: bool,
    constant: i128,
    equal: bool,
) -> Result<LinearRow, AllocError>
    requires order { low < high }
    requires below { high < 6 }
    ensures difference { IfOk result (λ row. IsDifference row.parts) }
    ensures below { IfOk result (λ row. TermsBelow 6 row.parts) }
{
    let mut parts = Vec::new(alloc);
    parts.push((low, if up { 1 } else { -1 }))?;
    parts.push((high, if up { -1 } else { 1 }))?;
    Ok(LinearRow::new(parts, constant, equal))
}

/// A row of the generator: an equation in four, a row over one term in six.
pub(crate) fn row(alloc: Global, seed: &mut u64) -> Result<LinearRow, AllocError>
    ensures difference { IfOk result (λ row. IsDifference row.parts) }
    ensures below { IfOk result (λ row. TermsBelow 6 row.parts) }
{
    let first = draw(seed, 6);
    let second = draw(seed, 6);
    let up = draw(seed, 2) == 0;
    let constant = draw(seed, 13) as i128 - 8;
    let equal = draw(seed, 4) == 0;
    if first < second {
        pair(alloc, first, second, up, constant, equal)
    } else if second < first {
        pair(alloc, second, first, up, constant, equal)
    } else {
        single(alloc, first, up, constant, equal)
    }
}
