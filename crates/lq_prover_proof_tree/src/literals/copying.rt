// Copies of rows and implications.
ghost use Rattle.std.specs.Prelude.{◌≡◌, IfOk};
ghost use Rattle.lq_logic_predicates.specs.PredView.{implication_of};

use lq_logic_predicates::Closed;
use lq_logic_rows::LinearRow;
use std::alloc::{AllocError, Global};

/// An equal row.
pub fn copy_row(alloc: Global, row: &LinearRow) -> Result<LinearRow, AllocError>
    ensures { IfOk result (λ copied. copied ≡ row.now) }
{
    let parts = row.parts().to_vec(alloc)?;
    Ok(LinearRow::new(parts, row.constant(), row.equal()))
}

/// An equal implication.
pub fn copy_implication(alloc: Global, implication: &Closed) -> Result<Closed, AllocError>
    ensures { IfOk result (λ copied. implication_of copied ≡ implication_of implication.now) }
{
    let hypotheses = implication.hypotheses.copy(alloc)?;
    let goal = implication.goal.copy(alloc)?;
    Ok(Closed { hypotheses, goal })
}
