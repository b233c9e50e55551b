// Parts and matrices whose unknowns have greater numbers.
ghost use Rattle.std.specs.Prelude.{◌≡◌, IfOk};
ghost use Rattle.lq_refined_subtyping.specs.Table.Forms.{cell_view, matrix_view};
ghost use Rattle.lq_refined_types.specs.Renumbering.Renumbered.{cell_renumbered, matrix_renumbered, part_renumbered, parts_renumbered};
ghost use Rattle.lq_refined_substitution.specs.Substitution.Views.{part_view, parts_view};

use crate::table::forms::{Cell, Matrix};
use lq_refined_substitution::substitution::{Part, Parts};
use std::alloc::{AllocError, Global};

// The part with a number that is greater by this, where it is an unknown.
fn renumbered_part(alloc: Global, by: u64, part: &Part) -> Result<Part, AllocError>
    ensures { IfOk result (λ made. part_view made ≡ part_renumbered by (part_view part.now)) }
{
    match part {
        Part::Known(pred) => Ok(Part::Known(pred.copy(alloc)?)),
        Part::Unknown(unknown, inner) => {
            let number = by.checked_add(*unknown).ok_or(AllocError)?;
            Ok(Part::Unknown(number, inner.copy(alloc)?))
        }
    }
}

// The parts, each unknown with a number that is greater by this.
pub(crate) fn renumbered_parts(alloc: Global, by: u64, parts: &Parts) -> Result<Parts, AllocError>
    ensures { IfOk result (λ made. parts_view made ≡ parts_renumbered by (parts_view parts.now)) }
{
    let mut made = Parts::new(alloc);
    for part in parts.as_slice() {
        made.push(renumbered_part(alloc, by, part)?)?;
    }
    Ok(made)
}

impl Cell {
    // The entry, each unknown of its parts with a number that is greater by this.
    fn renumbered(&self, alloc: Global, by: u64) -> Result<Cell, AllocError>
        ensures { IfOk result (λ made. cell_view made ≡ cell_renumbered by (cell_view self.now)) }
    {
        Ok(Cell {
            constructor: self.constructor,
            field: self.field,
            parameter: self.parameter,
            parts: renumbered_parts(alloc, by, &self.parts)?,
        })
    }
}

impl Matrix {
    // The entries, each unknown of their parts with a number that is greater by this.
    pub(crate) fn renumbered(&self, alloc: Global, by: u64) -> Result<Matrix, AllocError>
        ensures { IfOk result (λ made. matrix_view made ≡ matrix_renumbered by (matrix_view self.now)) }
    {
        let mut items = Vec::new(alloc);
        for cell in &self.items {
            items.push(cell.renumbered(alloc, by)?)?;
        }
        Ok(Matrix { items })
    }
}
