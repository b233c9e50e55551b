// Rows that stand, with the bounds that they give.
ghost use Rattle.std.specs.Prelude.{◌≡◌, ◌<◌, length, take, ◌∷◌, [], pos, IfOk, IfErr, IfSome, IfNone, IsNone};
ghost use Rattle.lq_logic_rows.specs.Row.{RowHolds};

use lq_base_numbers::fractions::Frac;
use lq_logic_rows::LinearRow;
use std::alloc::{AllocError, Global};

/// A row as a bound of a variable: it is read "so many times the divisor, variable minus value, is at most 0", or "is 0". A row whose first
/// coefficient is below 0 is turned: it bounds the variable from below.
#[derive(Clone, Copy)]
pub(crate) struct Bound {
    pub(crate) variable: usize,
    pub(crate) value: Frac,
    /// The greatest common divisor of the row's coefficients.
    pub(crate) divisor: i128,
    pub(crate) turned: bool,
}

/// A row that stands. One without terms bounds nothing.
#[derive(Drop)]
pub(crate) struct Standing {
    pub(crate) tag: u64,
    pub(crate) row: LinearRow,
    pub(crate) bound: Option<Bound>,
}

/// An equal row.
pub(crate) fn copy(alloc: Global, row: &LinearRow) -> Result<LinearRow, AllocError>
    ensures { IfOk result (λ made. made ≡ row.now) }
{
    let mut parts = Vec::new(alloc);
    for part in row.parts() {
        parts.push(*part)?;
    }
    Ok(LinearRow::new(parts, row.constant(), row.equal()))
}
