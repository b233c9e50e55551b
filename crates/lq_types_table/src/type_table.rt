// Types that share their parts.
ghost use Rattle.std.specs.Prelude.{◌≡◌, map, slice_index_or};
ghost use Rattle.lq_types_table.specs.Nodes.{IsTable, renamed};

use crate::type_node::{TypeHead, TypeNode, node_of};
use std::alloc::{AllocError, Global};

/// A variable, or this head over so many of the table's parts, from this place of them on.
#[derive(Clone, Copy)]
pub(crate) enum Row {
    Var(u32),
    Made(TypeHead, u32, u32),
}

/// Types, numbered from 0. The parts of each are earlier ones.
#[derive(Drop)]
pub struct TypeTable {
    rows: Vec<Row>,
    parts: Vec<u32>,
    ghost earlier: { IsTable parts.items rows.items },
}

impl TypeTable {
    ghost use Rattle.std.specs.Prelude.{◌≡◌, ◌<◌, ◌^◌, [], ◌∷◌, ◌++◌, length, map, All, IfOk, OnOk, OnErr, slice_index_or};
    ghost use Rattle.lq_text_tree.specs.MlType.{var};
    ghost use Rattle.lq_text_tree.specs.Types.{put};
    ghost use Rattle.lq_types_table.specs.Heads.{made, each, IsRight};
    ghost use Rattle.lq_types_table.specs.Nodes.{at};
    ghost use Rattle.lq_types_table.specs.Seen.{node_type, node_parts, IsOver};
    ghost use Rattle.lq_types_table.specs.Whole.{types_of};

    /// No types.
    pub fn new(alloc: Global) -> TypeTable
        ensures { types_of result ≡ [] }
    {
        TypeTable {
            rows: Vec::new(alloc),
            parts: Vec::new(alloc),
        }
    }

    /// How many types there are.
    pub fn len(&self) -> usize
        ensures count { result ≡ length (types_of self.now) }
        ensures small { result < 2 ^ 32 }
    {
        self.rows.len()
    }

    /// Adds the type of this head over these types, and answers its number.
    pub fn push(&mut self, head: TypeHead, parts: &[u32]) -> Result<u32, AllocError>
        requires parts { All (λ p. p < length (types_of self.old)) parts.now }
        requires right { IsRight head (length parts.now) }
        ensures added { OnOk result (types_of self.new
            ≡ types_of self.old ++ made head (each (at (types_of self.old)) parts.now) ∷ []) }
        ensures number { IfOk result (λ row. row ≡ length (types_of self.old)) }
        ensures kept { OnErr result (types_of self.new ≡ types_of self.old) }
    {
        let next = self.rows.len();
        if next + 1 > u32::MAX as usize {
            return Err(AllocError);
        }
        if self.parts.len() > u32::MAX as usize || parts.len() > u32::MAX as usize {
            return Err(AllocError);
        }
        let row = Row::Made(head, self.parts.len() as u32, parts.len() as u32);
        self.parts.extend_from_slice(parts)?;
        self.rows.push(row)?;
        Ok(next as u32)
    }

    /// Adds a variable, and answers its number in the table.
    pub fn push_variable(&mut self, variable: u32) -> Result<u32, AllocError>
        ensures added { OnOk result (types_of self.new ≡ types_of self.old ++ var variable ∷ []) }
        ensures number { IfOk result (λ row. row ≡ length (types_of self.old)) }
        ensures kept { OnErr result (types_of self.new ≡ types_of self.old) }
    {
        let next = self.rows.len();
        if next + 1 > u32::MAX as usize {
            return Err(AllocError);
        }
        self.rows.push(Row::Var(variable))?;
        Ok(next as u32)
    }

    /// One level of a type. Its parts are earlier ones.
    pub fn node(&self, row: u32) -> TypeNode<'_>
        requires { row < length (types_of self.now) }
        ensures types { node_type (types_of self.now) result ≡ at (types_of self.now) row }
        ensures earlier { All (λ p. p < row) (node_parts result) }
    {
        match self.rows[row as usize] {
            Row::Var(variable) => TypeNode::Var(variable),
            Row::Made(head, first, count) => {
                let from = first as usize;
                node_of(head, &self.parts[from..from + count as usize])
            }
        }
    }

    /// The parts of a type, which are earlier ones; a variable has none.
    pub fn parts(&self, row: u32) -> &[u32]
        requires { row < length (types_of self.now) }
        ensures over { IsOver (types_of self.now) row result.now }
        ensures earlier { All (λ p. p < row) result.now }
    {
        match self.rows[row as usize] {
            Row::Var(_) => &[],
            Row::Made(_, first, count) => {
                let from = first as usize;
                &self.parts[from..from + count as usize]
            }
        }
    }

    /// Gives other numbers to the variables: `names[v]` to each v that `names` has; the others stay.
    pub fn rename(&mut self, names: &[u32])
        ensures { types_of self.new ≡ map (put (λ v. var (slice_index_or names.now v v)))
            (types_of self.old) }
    {
        rename_rows(&mut self.rows, names);
    }
}

// The variables among the rows get other numbers.
fn rename_rows(rows: &mut [Row], names: &[u32])
    ensures { rows.new ≡ map (renamed names.now) rows.old }
{
    for at in 0..rows.len() {
        rows[at] = row_of(rows[at], names);
    }
}

// The row with the variable's number from now on.
fn row_of(row: Row, names: &[u32]) -> Row
    ensures { result ≡ renamed names.now row }
{
    match row {
        Row::Var(variable) => Row::Var(name_of(names, variable)),
        Row::Made(head, first, count) => Row::Made(head, first, count),
    }
}

// The number of a variable from now on.
fn name_of(names: &[u32], variable: u32) -> u32
    ensures { result ≡ slice_index_or names.now variable variable }
{
    if (variable as usize) < names.len() {
        names[variable as usize]
    } else {
        variable
    }
}
