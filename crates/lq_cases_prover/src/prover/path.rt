// The path of a proof tree: facts and open choices, each numbered from 1.
use lq_logic_predicates::{Nnf, Nnfs};
use lq_logic_rows::LinearRow;
use std::alloc::{AllocError, Global};

/// A fact.
#[derive(Drop)]
pub(crate) enum Fact<'a> {
    /// A literal of a reading.
    Literal(&'a Nnf),
    /// A row that a node of the tree adds.
    Row(LinearRow),
}

/// How many facts and choices there are.
#[derive(Clone, Copy)]
pub(crate) struct Mark {
    facts: usize,
    choices: usize,
}

/// Facts and choices in the order in which they were taken.
#[derive(Drop)]
pub(crate) struct Path<'a> {
    facts: Vec<Fact<'a>>,
    choices: Vec<&'a Nnfs>,
}

impl<'a> Path<'a> {
    pub(crate) fn new(alloc: Global) -> Path<'a> {
        Path {
            facts: Vec::new(alloc),
            choices: Vec::new(alloc),
        }
    }

    pub(crate) fn mark(&self) -> Mark {
        Mark {
            facts: self.facts.len(),
            choices: self.choices.len(),
        }
    }

    /// Takes back what was added behind a mark.
    pub(crate) fn back_to(&mut self, mark: Mark) {
        self.facts.truncate(mark.facts);
        self.choices.truncate(mark.choices);
    }

    /// How many facts there are.
    pub(crate) fn len(&self) -> usize {
        self.facts.len()
    }

    pub(crate) fn add_row(&mut self, row: LinearRow) -> Result<(), AllocError> {
        self.facts.push(Fact::Row(row))?;
        Ok(())
    }

    fn fact(&self, number: u64) -> Option<&Fact<'a>> {
        self.facts.get(number.checked_sub(1)? as usize)
    }

    /// The literal that a fact is.
    pub(crate) fn literal(&self, number: u64) -> Option<&'a Nnf> {
        match self.fact(number)? {
            Fact::Literal(nnf) => Some(*nnf),
            Fact::Row(_) => None,
        }
    }

    /// The row that a fact is.
    pub(crate) fn row(&self, number: u64) -> Option<&LinearRow> {
        match self.fact(number)? {
            Fact::Literal(Nnf::Row(row)) => Some(row),
            Fact::Row(row) => Some(row),
            Fact::Literal(_) => None,
        }
    }

    /// The members of a choice.
    pub(crate) fn choice(&self, number: u64) -> Option<&'a Nnfs> {
        self.choices.get(number.checked_sub(1)? as usize).copied()
    }
}

/// Takes a reading: all of some readings in order, and a choice as the next choice.
#[cycle(take)]
pub(crate) fn take<'a>(nnf: &'a Nnf, path: &mut Path<'a>) -> Result<(), AllocError> {
    match nnf {
        Nnf::Yes => {}
        Nnf::All(all) => take_all(all, path)?,
        Nnf::Any(any) => path.choices.push(any)?,
        Nnf::No | Nnf::Row(_) | Nnf::Flag(_, _) | Nnf::Same(_, _, _) => {
            path.facts.push(Fact::Literal(nnf))?
        }
    }
    Ok(())
}

#[cycle(take)]
fn take_all<'a>(all: &'a Nnfs, path: &mut Path<'a>) -> Result<(), AllocError> {
    for nnf in all.as_slice() {
        take(nnf, path)?;
    }
    Ok(())
}

/// The path on which the first readings were taken, so many.
pub(crate) fn path_of<'a>(
    alloc: Global,
    readings: &'a [Nnf],
    count: usize,
) -> Result<Path<'a>, AllocError> {
    let mut path = Path::new(alloc);
    for reading in readings.iter().take(count) {
        take(reading, &mut path)?;
    }
    Ok(path)
}
