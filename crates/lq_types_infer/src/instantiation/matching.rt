// The types that stand for the variables of a definition's type where it is used.
ghost use Rattle.std.specs.Prelude.{◌≡◌, IfOk, replicate};

use crate::instantiation::opens::{opens_of, variable_in};
use lq_types_table::TypeTable;
use std::alloc::{AllocError, Global};

/// A walk over two types of a table side by side, of which the second is the first with other types for its variables.
#[derive(Drop)]
pub(crate) struct Matching {
    // in which types of the table a variable stands
    with_variables: Vec<bool>,
    // the last turn in which each type was met
    stamps: Vec<u32>,
    turn: u32,
    // for each variable the type that stands for it in this turn
    pub(crate) found: Vec<u32>,
}

// So many times the same number.
fn repeated(alloc: Global, value: u32, count: usize) -> Result<Vec<u32>, AllocError>
    ensures { IfOk result (λ ns. ns.items ≡ replicate count value) }
{
    let mut numbers = Vec::new(alloc);
    for _ in 0..count {
        numbers.push(value)?;
    }
    Ok(numbers)
}

impl Matching {
    ghost use Rattle.std.specs.Prelude.{◌≡◌, ℕ, ◌+◌, ◌<◌, ◌≤◌, None, length, replicate, IfOk, OnOk, slice_index_or};
    ghost use Rattle.lq_text_tree.specs.MlType.{MlType};
    ghost use Rattle.lq_text_tree.specs.Types.{put};
    ghost use Rattle.lq_types_table.specs.Nodes.{at};
    ghost use Rattle.lq_types_table.specs.Whole.{types_of};
    ghost use Rattle.lq_types_infer.specs.Annotation.Bounds.{bound_of};
    ghost use Rattle.lq_types_infer.specs.Annotation.Numbering.{variable_in};
    ghost use Rattle.lq_types_infer.specs.Instantiation.Matching.{Becomes, AreMet, IsMatching, IsSameTurn, IsWalked};

    /// For the types of a table.
    pub(crate) fn new(alloc: Global, table: &TypeTable) -> Result<Matching, AllocError>
        ensures { IfOk result (IsMatching (types_of table.now)) }
    {
        Ok(Matching {
            with_variables: opens_of(alloc, table)?,
            stamps: repeated(alloc, 0, table.len())?,
            turn: 0,
            found: Vec::new(alloc),
        })
    }

    // Notes the types that stand for the variables of a type's parts.
    #[cycle(types)]
    fn walk_parts(&mut self, table: &TypeTable, definition: u32, used: u32)
        requires definition { definition < length (types_of table.now) }
        requires used { used < length (types_of table.now) }
        requires other { variable_in (at (types_of table.now) definition) ≡ None }
        requires matching { IsMatching (types_of table.now) self.old }
        requires room { bound_of (at (types_of table.now) definition) ≤ length self.old.found.items }
        requires becomes { ∥ ((by : ℕ → MlType) × Becomes (types_of table.now) by definition used) ∥₁ }
        ensures matching { IsMatching (types_of table.now) self.new }
        ensures same { IsSameTurn self.old self.new }
        ensures walked { (by : ℕ → MlType) → Becomes (types_of table.now) by definition used
            → AreMet (types_of table.now) by self.old
            → IsWalked (types_of table.now) by self.old self.new definition }
    {
        let parts = table.parts(definition);
        let others = table.parts(used);
        for at in 0..parts.len() {
            self.walk(table, parts[at], others[at]);
        }
    }

    // Notes the type that stands for a variable, or those for the variables of a type's parts.
    #[cycle(types)]
    fn enter(&mut self, table: &TypeTable, definition: u32, used: u32)
        requires definition { definition < length (types_of table.now) }
        requires used { used < length (types_of table.now) }
        requires matching { IsMatching (types_of table.now) self.old }
        requires room { bound_of (at (types_of table.now) definition) ≤ length self.old.found.items }
        requires becomes { ∥ ((by : ℕ → MlType) × Becomes (types_of table.now) by definition used) ∥₁ }
        ensures matching { IsMatching (types_of table.now) self.new }
        ensures same { IsSameTurn self.old self.new }
        ensures walked { (by : ℕ → MlType) → Becomes (types_of table.now) by definition used
            → AreMet (types_of table.now) by self.old
            → IsWalked (types_of table.now) by self.old self.new definition }
    {
        match variable_in(table.node(definition)) {
            Some(variable) => self.found[variable as usize] = used,
            None => self.walk_parts(table, definition, used),
        }
    }

    // Notes the types that stand for the variables of a type, unless it has none or was met in this turn. The types of a program's nodes
    // and binders have at most 2,000 types in them, so this is no deeper than that.
    #[cycle(types)]
    fn walk(&mut self, table: &TypeTable, definition: u32, used: u32)
        requires definition { definition < length (types_of table.now) }
        requires used { used < length (types_of table.now) }
        requires matching { IsMatching (types_of table.now) self.old }
        requires room { bound_of (at (types_of table.now) definition) ≤ length self.old.found.items }
        requires becomes { ∥ ((by : ℕ → MlType) × Becomes (types_of table.now) by definition used) ∥₁ }
        ensures matching { IsMatching (types_of table.now) self.new }
        ensures same { IsSameTurn self.old self.new }
        ensures walked { (by : ℕ → MlType) → Becomes (types_of table.now) by definition used
            → AreMet (types_of table.now) by self.old
            → IsWalked (types_of table.now) by self.old self.new definition }
    {
        let at = definition as usize;
        if !self.with_variables[at] {
            return;
        }
        if self.stamps[at] == self.turn {
            return;
        }
        self.enter(table, definition, used);
        self.stamps[at] = self.turn;
    }

    // A further turn, in which this type is noted for each variable until another one is.
    fn begin(&mut self, alloc: Global, used: u32, count: u32) -> Result<(), AllocError>
        ensures turn { OnOk result (self.new.turn ≡ self.old.turn + 1) }
        ensures found { OnOk result (self.new.found.items ≡ replicate count used) }
        ensures stamps { OnOk result (self.new.stamps ≡ self.old.stamps) }
        ensures opens { OnOk result (self.new.with_variables ≡ self.old.with_variables) }
    {
        let turn = self.turn.checked_add(1).ok_or(AllocError)?;
        self.found = repeated(alloc, used, count as usize)?;
        self.turn = turn;
        Ok(())
    }

    /// Finds the types that stand for the variables of a definition's type, so many, in the type of a use.
    pub(crate) fn find(
        &mut self,
        alloc: Global,
        table: &TypeTable,
        definition: u32,
        used: u32,
        count: u32,
    ) -> Result<(), AllocError>
        requires definition { definition < length (types_of table.now) }
        requires used { used < length (types_of table.now) }
        requires matching { IsMatching (types_of table.now) self.old }
        requires count { count ≡ bound_of (at (types_of table.now) definition) }
        requires becomes { ∥ ((by : ℕ → MlType) × Becomes (types_of table.now) by definition used) ∥₁ }
        ensures matching { OnOk result (IsMatching (types_of table.now) self.new) }
        ensures long { OnOk result (length self.new.found.items ≡ count) }
        ensures found { OnOk result ((by : ℕ → MlType) → Becomes (types_of table.now) by definition used
            → Becomes (types_of table.now) (λ v. at (types_of table.now)
            (slice_index_or self.new.found.items v 0)) definition used) }
    {
        self.begin(alloc, used, count)?;
        self.walk(table, definition, used);
        Ok(())
    }
}
