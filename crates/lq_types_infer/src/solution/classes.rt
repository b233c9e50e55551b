// The types of classes, in their order.
ghost use Rattle.std.specs.Prelude.{◌≡◌, ℕ, ◌<◌, ◌++◌, [], ◌∷◌, length, map, All, IfOk, OnOk, slice_index_or};
ghost use Rattle.lq_types_unify.specs.Classes.{up, root};
ghost use Rattle.lq_types_unify.specs.Value.{inner};
ghost use Rattle.lq_types_rules.specs.Equations.Adding.{count_of, forms_of};
ghost use Rattle.lq_types_rules.specs.Equations.Solved.{types_in};
ghost use Rattle.lq_types_table.specs.Whole.{types_of};
ghost use Rattle.lq_types_infer.specs.Solution.Slots.{IsPlaced, IsSettled};

use crate::solution::heads::head_of;
use crate::solution::slots::SlotTypes;
use lq_types_rules::equations::System;
use lq_types_table::TypeTable;
use lq_types_unify::{Node, Solution};
use std::alloc::{AllocError, Global};

/// The types of the classes, and for each root the number of its type.
pub(crate) fn types_of_classes(
    alloc: Global,
    system: &System,
    solution: &Solution,
) -> Result<SlotTypes, AllocError>
    requires { IsSettled system.now solution.now }
    ensures long { IfOk result (λ s. length s.rows.items ≡ count_of system.now) }
    ensures placed { IfOk result (λ s. (i : ℕ) → i < count_of system.now
        → IsPlaced (types_of s.types) s.rows.items (types_in system.now solution.now)
        (root solution.now.parents.items i)) }
{
    let mut types = TypeTable::new(alloc);
    let mut rows = no_rows(alloc, system.arena.nodes.len())?;
    for class in &solution.order {
        rows[*class as usize] = push_class(alloc, &mut types, &rows, system, solution, *class)?;
    }
    Ok(SlotTypes { types, rows })
}

// So many numbers that stand for no type yet.
fn no_rows(alloc: Global, count: usize) -> Result<Vec<u32>, AllocError>
    ensures { IfOk result (λ rows. length rows.items ≡ count) }
{
    let mut rows = Vec::new(alloc);
    for _ in 0..count {
        rows.push(0)?;
    }
    Ok(rows)
}

// Adds the type of a class to those of its parts, and answers its number.
fn push_class(
    alloc: Global,
    types: &mut TypeTable,
    rows: &[u32],
    system: &System,
    solution: &Solution,
    class: u32,
) -> Result<u32, AllocError>
    requires settled { IsSettled system.now solution.now }
    requires long { length rows.now ≡ count_of system.now }
    requires inside { class < count_of system.now }
    requires is_root { up solution.now.parents.items class ≡ class }
    requires placed { All (λ p. IsPlaced (types_of types.old) rows.now
        (types_in system.now solution.now) (root solution.now.parents.items p))
        (inner (forms_of system.now) solution.now.shapes.items class) }
    ensures added { OnOk result (types_of types.new
        ≡ types_of types.old ++ types_in system.now solution.now class ∷ []) }
    ensures number { IfOk result (λ row. row ≡ length (types_of types.old)) }
{
    match system.arena.nodes[solution.shapes[class as usize] as usize] {
        Node::Open => types.push_variable(class),
        Node::Made(head, first, count) => {
            let from = first as usize;
            let parts = &system.arena.parts[from..from + count as usize];
            let numbers = rows_of(alloc, solution, rows, parts)?;
            types.push(head_of(head), &numbers)
        }
    }
}

// The numbers of the types of these nodes.
fn rows_of(
    alloc: Global,
    solution: &Solution,
    rows: &[u32],
    nodes: &[u32],
) -> Result<Vec<u32>, AllocError>
    requires parents { All (λ p. p < length solution.now.parents.items) nodes.now }
    requires rows { All (λ p. up solution.now.parents.items p < length rows.now) nodes.now }
    ensures { IfOk result (λ all. all.items
        ≡ map (λ p. slice_index_or rows.now (up solution.now.parents.items p) 0) nodes.now) }
{
    let mut all = Vec::new(alloc);
    for node in nodes {
        all.push(rows[solution.parents[*node as usize] as usize])?;
    }
    Ok(all)
}
