// Parts and matrices under an assignment.
ghost use Rattle.std.specs.Prelude.{◌≡◌, ◌++◌, map, IfOk, OnOk};
ghost use Rattle.lq_refined_types.specs.Parts.Assignment.{part_under};
ghost use Rattle.lq_refined_types.specs.Parts.Part.{known};
ghost use Rattle.lq_refined_types.specs.Parts.Substitution.{formula_by};
ghost use Rattle.lq_logic_predicates.specs.PredView.{formula_of};
ghost use Rattle.lq_refined_types.specs.Types.Operations.{cells_under, known_parts};
ghost use Rattle.lq_refined_subtyping.specs.Table.Forms.{matrix_view};
ghost use Rattle.lq_refined_substitution.specs.Substitution.Views.{part_view, parts_view, subst_view};
ghost use Rattle.lq_top_answers.specs.Assignment.Views.{assignment_view};

use crate::assignment::assignment::Assignment;
use lq_logic_predicates::Pred;
use lq_refined_substitution::substitution::{Part, Parts, Subst, substitute};
use lq_refined_subtyping::table::{Cell, Matrix};
use std::alloc::{AllocError, Global};

// Adds predicates with something put for their symbols behind parts.
fn add_instances(
    alloc: Global,
    into: &mut Parts,
    preds: &[Pred],
    by: &Subst,
) -> Result<(), AllocError>
    ensures { OnOk result (parts_view into.new ≡ parts_view into.old
        ++ map known (map (formula_by (subst_view by.now)) (map formula_of preds.now))) }
{
    for pred in preds {
        into.push(Part::Known(substitute(alloc, pred, by)?))?;
    }
    Ok(())
}

// Adds what a part stands for behind parts.
fn add_part(
    alloc: Global,
    into: &mut Parts,
    assignment: &Assignment,
    part: &Part,
) -> Result<(), AllocError>
    ensures { OnOk result (parts_view into.new ≡ parts_view into.old
        ++ map known (part_under (assignment_view assignment.now) (part_view part.now))) }
{
    match part {
        Part::Known(_) => into.push(part.copy(alloc)?),
        Part::Unknown(unknown, by) => {
            add_instances(alloc, into, assignment.instances(*unknown), by)
        }
    }
}

/// The parts, each unknown replaced by its instances.
pub fn known_parts(
    alloc: Global,
    assignment: &Assignment,
    parts: &Parts,
) -> Result<Parts, AllocError>
    ensures { IfOk result (λ made. parts_view made
        ≡ known_parts (assignment_view assignment.now) (parts_view parts.now)) }
{
    let mut made = Parts::new(alloc);
    for part in parts.as_slice() {
        add_part(alloc, &mut made, assignment, part)?;
    }
    Ok(made)
}

/// The matrix, each unknown in it replaced by its instances.
pub fn known_cells(
    alloc: Global,
    assignment: &Assignment,
    matrix: &Matrix,
) -> Result<Matrix, AllocError>
    ensures { IfOk result (λ made. matrix_view made
        ≡ cells_under (assignment_view assignment.now) (matrix_view matrix.now)) }
{
    let mut made = Matrix::new(alloc);
    for cell in matrix.as_slice() {
        made.push(Cell {
            constructor: cell.constructor,
            field: cell.field,
            parameter: cell.parameter,
            parts: known_parts(alloc, assignment, &cell.parts)?,
        })?;
    }
    Ok(made)
}
