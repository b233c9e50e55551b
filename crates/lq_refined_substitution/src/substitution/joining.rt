// Rows of replacements behind others.
ghost use Rattle.std.specs.Prelude.{◌≡◌, ◌++◌, IfOk};
ghost use Rattle.lq_refined_substitution.specs.Substitution.Listed.{rows_items};
ghost use Rattle.lq_refined_substitution.specs.Substitution.Runs.{runs_view, swaps_view};

use crate::substitution::rows::{FEW, Rows};
use crate::substitution::runs::{Run, add_copies_of, add_shared, behind, in_front, shared};
use std::alloc::{AllocError, Global};

/// Rows of so many replacements, and others behind them: where one of the two are few, they are put to the end of the others.
pub(crate) fn joined(
    alloc: Global,
    front: Vec<Run>,
    mut back: Vec<Run>,
    count: usize,
    more: &Rows,
) -> Result<Rows, AllocError>
    ensures { IfOk result (λ made. swaps_view (rows_items made)
        ≡ (runs_view front.items ++ runs_view back.items) ++ swaps_view (rows_items more.now)) }
{
    if more.len() <= FEW && more.len() <= count {
        let mut swaps = Vec::with_capacity(alloc, more.len())?;
        more.add_to(alloc, &mut swaps)?;
        let back = behind(alloc, &back, &swaps)?;
        return Rows::of(front, back);
    }
    if count <= FEW {
        let mut swaps = Vec::with_capacity(alloc, count)?;
        add_copies_of(alloc, &mut swaps, &front)?;
        add_copies_of(alloc, &mut swaps, &back)?;
        let front = in_front(alloc, &swaps, &more.front)?;
        let back = shared(alloc, &more.back)?;
        return Rows::of(front, back);
    }
    add_shared(&mut back, &more.front)?;
    add_shared(&mut back, &more.back)?;
    Rows::of(front, back)
}
