// Programs with their types.
ghost use Rattle.std.specs.Prelude.{◌≡◌, map};
ghost use Rattle.lq_types_rules.specs.Visits.Laws.{slot_count};
ghost use Rattle.lq_text_walk.specs.Scoped.Whole.{scoped_view};
ghost use Rattle.lq_types_table.specs.Whole as table_whole;
ghost use Rattle.lq_types_rules.specs.Typings.Inference.{typed, IsInference};
ghost use Rattle.lq_types_infer.specs.Annotation.Bounds.{bound_of};
ghost use Rattle.lq_types_infer.specs.Annotation.Slots.{slot_types, AreRows};

use crate::annotation::bounds::bounds_of;
use crate::annotation::errors::TypeError;
use crate::annotation::laws::{
    named_is_inference, seen_are_principal, seen_are_weak, seen_variables_are_apart,
};
use crate::annotation::measures::measure;
use crate::annotation::numbering::numbers_of;
use crate::annotation::refusals::{first_large, first_weak};
use lq_text_tree::Binder;
use lq_text_walk::scoped::Scoped;
use lq_types_table::TypeTable;
use std::alloc::Global;

/// A program with its principal annotation: no definition is weak, no type has more than 2,000 types in it, and the variables of each
/// definition are numbered from 0 as they first appear.
#[derive(Drop)]
pub struct Annotated {
    program: Scoped,
    table: TypeTable,
    // the types of nodes, and behind them those of binders
    rows: Vec<u32>,
    // the number past the last variable of each type of the table
    bounds: Vec<u32>,
    ghost inside: { AreRows (table_whole.types_of table) rows.items (slot_count (scoped_view program)) },
    ghost answer: { ∥ IsInference (scoped_view program)
        (typed (slot_types (table_whole.types_of table) rows.items)) ∥₁ },
    ghost bounded: { bounds.items ≡ map bound_of (table_whole.types_of table) },
}

impl Annotated {
    ghost use Rattle.std.specs.Prelude.{◌≡◌, ◌+◌, ◌<◌, length, IfOk, IfErr};
    ghost use Rattle.lq_text_walk.specs.Scoped.Whole.{scoped_view};
    ghost use Rattle.lq_types_table.specs.Nodes.{at};
    ghost use Rattle.lq_types_table.specs.Whole as table_whole;
    ghost use Rattle.lq_types_rules.specs.Typings.Inference.{typed, IsInference};
    ghost use Rattle.lq_types_rules.specs.Typings.Principal.{node_count};
    ghost use Rattle.lq_types_rules.specs.Visits.Laws.{slot_count};
    ghost use Rattle.lq_types_infer.specs.Annotation.Bounds.{bound_of};
    ghost use Rattle.lq_types_infer.specs.Annotation.Errors.{HasTypeError};
    ghost use Rattle.lq_types_infer.specs.Annotation.Seen.{IsSeen};
    ghost use Rattle.lq_types_infer.specs.Annotation.Slots.{slot_types, AreRows};
    ghost use Rattle.lq_types_infer.specs.Annotation.Whole.{program_of, table_of, types_of};

    // The annotation of a program of so many nodes, of whose equations the most general solution gives each slot a type of this table.
    pub(crate) fn from_solution(
        alloc: Global,
        program: Scoped,
        nodes: u32,
        mut table: TypeTable,
        rows: Vec<u32>,
    ) -> Result<Annotated, TypeError>
        requires nodes { nodes ≡ node_count (scoped_view program) }
        requires rows { AreRows (table_whole.types_of table) rows.items (slot_count (scoped_view program)) }
        requires seen { IsSeen (scoped_view program) (slot_types (table_whole.types_of table) rows.items) }
        ensures program { IfOk result (λ a. program_of a ≡ scoped_view program) }
        ensures typed { IfOk result (λ a. IsInference (scoped_view program) (typed (types_of a))) }
        ensures refused { IfErr result (HasTypeError (scoped_view program)) }
    {
        named_is_inference();
        seen_are_principal();
        seen_are_weak();
        seen_variables_are_apart();
        let measures = measure(alloc, &table)?;
        if let Some(place) = first_weak(alloc, &program, &table, &rows, &measures)? {
            return Err(TypeError::WeakType(place));
        }
        if let Some(large) = first_large(alloc, &program, &table, &rows, &measures)? {
            return Err(TypeError::TypePast(large.place, large.size));
        }
        let names = numbers_of(alloc, &program, nodes, &table, &measures.open, &rows)?;
        table.rename(&names);
        let bounds = bounds_of(alloc, &table)?;
        Ok(Annotated {
            program,
            table,
            rows,
            bounds,
        })
    }

    /// The program.
    pub fn scoped(&self) -> &Scoped
        ensures program { scoped_view result.now ≡ program_of self.now }
        ensures typed { ∥ IsInference (program_of self.now) (typed (types_of self.now)) ∥₁ }
    {
        &self.program
    }

    /// The types, which share their parts.
    pub fn types(&self) -> &TypeTable
        ensures { table_whole.types_of result.now ≡ table_of self.now }
    {
        &self.table
    }

    /// How many nodes the program has.
    pub fn nodes(&self) -> usize
        ensures { result ≡ node_count (program_of self.now) }
    {
        self.rows.len() - self.program.binders()
    }

    /// The number in the table of a node's type.
    pub fn type_of(&self, id: u32) -> u32
        requires { id < node_count (program_of self.now) }
        ensures inside { result < length (table_of self.now) }
        ensures types { at (table_of self.now) result ≡ types_of self.now id }
    {
        self.rows[id as usize]
    }

    /// The number in the table of a binder's type.
    pub fn type_of_binder(&self, binder: Binder) -> u32
        requires { binder.0 < length (program_of self.now).sources }
        ensures inside { result < length (table_of self.now) }
        ensures types { at (table_of self.now) result
            ≡ types_of self.now (node_count (program_of self.now) + binder.0) }
    {
        self.rows[self.nodes() + binder.0 as usize]
    }

    /// The number past the last variable of a binder's type, 0 where it has none.
    pub fn scheme_of(&self, binder: Binder) -> u32
        requires { binder.0 < length (program_of self.now).sources }
        ensures { result ≡ bound_of (types_of self.now (node_count (program_of self.now) + binder.0)) }
    {
        self.bounds[self.type_of_binder(binder) as usize]
    }
}
