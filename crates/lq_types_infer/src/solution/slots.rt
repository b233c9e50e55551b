// The types of slots.
ghost use Rattle.std.specs.Prelude.{◌≤◌, IfOk};
ghost use Rattle.lq_types_unify.specs.Solved.{HasOrder};
ghost use Rattle.lq_types_rules.specs.Equations.Solutions.{Fits};
ghost use Rattle.lq_types_rules.specs.Equations.Adding.{IsSystem, count_of, forms_of};
ghost use Rattle.lq_types_rules.specs.Equations.Solved.{types_in};
ghost use Rattle.lq_types_table.specs.Whole.{types_of};
ghost use Rattle.lq_types_infer.specs.Solution.Slots.{AreTypesOf};

use crate::solution::classes::types_of_classes;
use lq_types_rules::equations::System;
use lq_types_table::TypeTable;
use lq_types_unify::Solution;
use std::alloc::{AllocError, Global};

/// Types, and for each slot the number of its type.
#[derive(Drop)]
pub struct SlotTypes {
    pub types: TypeTable,
    pub rows: Vec<u32>,
}

/// The types that a solution gives to the first so many nodes of a system. What is of one class is one
/// type of the table.
pub fn table_of(
    alloc: Global,
    system: &System,
    solution: &Solution,
    slots: u32,
) -> Result<SlotTypes, AllocError>
    requires system { IsSystem system.now }
    requires order { HasOrder system.now.arena solution.now }
    requires fits { Fits (forms_of system.now) (types_in system.now solution.now) }
    requires slots { slots ≤ count_of system.now }
    ensures { IfOk result (λ s. AreTypesOf (types_of s.types) s.rows.items slots
        (types_in system.now solution.now)) }
{
    let classes = types_of_classes(alloc, system, solution)?;
    let mut rows = Vec::new(alloc);
    for slot in 0..slots {
        rows.push(classes.rows[solution.parents[slot as usize] as usize])?;
    }
    Ok(SlotTypes {
        types: classes.types,
        rows,
    })
}
