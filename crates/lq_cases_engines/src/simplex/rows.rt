// Rows over five terms, by a generator of numbers.
ghost use Rattle.std.specs.Prelude.{◌≡◌, ◌<◌, ◌+◌, IfOk};
ghost use Rattle.lq_logic_rows.specs.Difference.{TermsBelow};
ghost use Rattle.lq_cases_engines.specs.Simplex.Rows.{IsRowBelow};

use lq_logic_rows::LinearRow;
use std::alloc::{AllocError, Global};

/// A number of the generator, below another.
pub(crate) fn draw(seed: &mut u64, below: u64) -> u64
    requires { 0 < below }
    ensures { result < below }
{
    *seed = seed
        .wrapping_mul(6364136223846793005)
        .wrapping_add(1442695040888963407);
    (*seed >> 33) % below
}

/// A coefficient from -3 to 3, and 0 in more than half of the cases.
fn coefficient(seed: &mut u64) -> i128 {
    if draw(seed, 2) == 0 {
        0
    } else {
        draw(seed, 7) as i128 - 3
    }
}

/// Adds a term, unless its coefficient is 0.
fn with(
    mut parts: Vec<(u64, i128)>,
    term: u64,
    coefficient: i128,
) -> Result<Vec<(u64, i128)>, AllocError>
    requires { IsRowBelow term parts.items }
    ensures { IfOk result (λ made. IsRowBelow (term + 1) made.items) }
{
    if coefficient != 0 {
        parts.push((term, coefficient))?;
    }
    Ok(parts)
}

/// A row of the generator: an equation in six.
pub(crate) fn row(alloc: Global, seed: &mut u64) -> Result<LinearRow, AllocError>
    ensures { IfOk result (λ row. TermsBelow 5 row.parts) }
{
    let mut parts = Vec::new(alloc);
    for term in 0..5 {
        let factor = coefficient(seed);
        parts = with(parts, term, factor)?;
    }
    let constant = draw(seed, 13) as i128 - 8;
    Ok(LinearRow::new(parts, constant, draw(seed, 6) == 0))
}
