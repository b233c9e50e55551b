// Readings by the places of a program.
ghost use Rattle.std.specs.Prelude.{◌≡◌, ◌⊎◌, ◌<◌, ℕ, IfSome, None, OnOk, Some, length};
ghost use Rattle.lq_solve_facts.specs.Store.Store.{left_at, read_at, read_in, stored_at};
ghost use Rattle.lq_solve_facts.specs.declared.store.store.PartPlace.{PartPlace};
ghost use Rattle.lq_solve_facts.specs.declared.facts.read.ReadPred.{ReadPred};

use crate::facts::ReadPred;
use std::alloc::{AllocError, Global};
use std::rc::Rc;

/// No more readings are stored.
const MOST: u64 = 262144;

/// Where a part stands in a program.
#[derive(Clone, Copy)]
pub(crate) enum PartPlace {
    /// It is the last hypothesis of an environment.
    Environment(u64),
    /// It is the goal of an implication.
    Goal(u64),
    /// It is a hypothesis of an implication, with so many behind it.
    Left(u64, u64),
}

/// Readings by number.
#[derive(Drop)]
struct Row {
    reads: Vec<Option<Rc<ReadPred>>>,
}

impl Row {
    // The reading of a number, if it is there.
    fn get(&self, number: u64) -> Option<&Rc<ReadPred>>
        ensures { IfSome result (λ r. read_in self.now number ≡ Some r.now.value) }
    {
        match self.reads.get(number as usize) {
            Some(read) => read.as_ref(),
            None => None,
        }
    }

    // Makes room for a number.
    fn widen(&mut self, number: u64) -> Result<(), AllocError>
        ensures long { OnOk result (number < length self.new.reads.items) }
        ensures same { (n : ℕ) → read_in self.new n ≡ read_in self.old n }
    {
        while self.reads.len() as u64 <= number {
            self.reads.push(None)?;
        }
        Ok(())
    }

    // Stores a reading under a number.
    fn put(&mut self, number: u64, read: Rc<ReadPred>) -> Result<(), AllocError>
        ensures { (n : ℕ) (r : ReadPred) → read_in self.new n ≡ Some r
            → (read_in self.old n ≡ Some r) ⊎ ((n ≡ number) × (r ≡ read.value)) }
    {
        self.widen(number)?;
        self.reads[number as usize] = Some(read);
        Ok(())
    }
}

/// Readings by row and number.
#[derive(Drop)]
struct Rows {
    rows: Vec<Row>,
}

impl Rows {
    // No readings.
    fn new(alloc: Global) -> Rows
        ensures { (i n : ℕ) → read_at result i n ≡ None }
    {
        Rows {
            rows: Vec::new(alloc),
        }
    }

    // The reading of a number in a row, if it is there.
    fn get(&self, row: u64, number: u64) -> Option<&Rc<ReadPred>>
        ensures { IfSome result (λ r. read_at self.now row number ≡ Some r.now.value) }
    {
        match self.rows.get(row as usize) {
            Some(reads) => reads.get(number),
            None => None,
        }
    }

    // Makes room for a row.
    fn widen(&mut self, alloc: Global, row: u64) -> Result<(), AllocError>
        ensures long { OnOk result (row < length self.new.rows.items) }
        ensures same { (i n : ℕ) → read_at self.new i n ≡ read_at self.old i n }
    {
        while self.rows.len() as u64 <= row {
            self.rows.push(Row {
                reads: Vec::new(alloc),
            })?;
        }
        Ok(())
    }

    // Stores a reading under a number in a row.
    fn put(
        &mut self,
        alloc: Global,
        row: u64,
        number: u64,
        read: Rc<ReadPred>,
    ) -> Result<(), AllocError>
        ensures { (i n : ℕ) (r : ReadPred) → read_at self.new i n ≡ Some r
            → (read_at self.old i n ≡ Some r) ⊎ ((i ≡ row) × (n ≡ number) × (r ≡ read.value)) }
    {
        self.widen(alloc, row)?;
        self.rows[row as usize].put(number, read)
    }
}

/// Readings of the parts of a program and of their instances, each by its place and its number. A part that is known has the number 0, and an
/// instance that of its unknown's list.
#[derive(Drop)]
pub(crate) struct Store {
    pub(crate) alloc: Global,
    environments: Rows,
    goals: Rows,
    /// Those of the hypotheses of a left type, by implication.
    lefts: Vec<Rows>,
    /// How many readings were stored.
    count: u64,
}

impl Store {
    /// No readings.
    pub(crate) fn new(alloc: Global) -> Store
        ensures { (q : PartPlace) (n : ℕ) → stored_at result q n ≡ None }
    {
        Store {
            alloc,
            environments: Rows::new(alloc),
            goals: Rows::new(alloc),
            lefts: Vec::new(alloc),
            count: 0,
        }
    }

    /// The reading that is stored at a place under a number.
    pub(crate) fn get(&self, place: PartPlace, number: u64) -> Option<&Rc<ReadPred>>
        ensures { IfSome result (λ r. stored_at self.now place number ≡ Some r.now.value) }
    {
        match place {
            PartPlace::Environment(env) => self.environments.get(env, number),
            PartPlace::Goal(at) => self.goals.get(at, number),
            PartPlace::Left(at, behind) => match self.lefts.get(at as usize) {
                Some(rows) => rows.get(behind, number),
                None => None,
            },
        }
    }

    /// Stores a reading at a place under a number. Where there is no room for it, it isn't stored.
    pub(crate) fn put(&mut self, place: PartPlace, number: u64, read: &Rc<ReadPred>)
        ensures { (q : PartPlace) (n : ℕ) (r : ReadPred) → stored_at self.new q n ≡ Some r
            → (stored_at self.old q n ≡ Some r) ⊎ ((q ≡ place) × (n ≡ number) × (r ≡ read.now.value)) }
    {
        if self.count >= MOST {
            return;
        }
        self.count += 1;
        if let Ok(shared) = read.clone() {
            let _stored = self.put_at(place, number, shared);
        }
    }

    // The same, where memory may lack.
    fn put_at(
        &mut self,
        place: PartPlace,
        number: u64,
        read: Rc<ReadPred>,
    ) -> Result<(), AllocError>
        ensures { (q : PartPlace) (n : ℕ) (r : ReadPred) → stored_at self.new q n ≡ Some r
            → (stored_at self.old q n ≡ Some r) ⊎ ((q ≡ place) × (n ≡ number) × (r ≡ read.value)) }
    {
        match place {
            PartPlace::Environment(env) => self.environments.put(self.alloc, env, number, read),
            PartPlace::Goal(at) => self.goals.put(self.alloc, at, number, read),
            PartPlace::Left(at, behind) => {
                widen(self.alloc, &mut self.lefts, at)?;
                self.lefts[at as usize].put(self.alloc, behind, number, read)
            }
        }
    }
}

// Makes room for the readings of an implication.
fn widen(alloc: Global, lefts: &mut Vec<Rows>, at: u64) -> Result<(), AllocError>
    ensures long { OnOk result (at < length lefts.new.items) }
    ensures same { (j i n : ℕ) → left_at lefts.new.items j i n ≡ left_at lefts.old.items j i n }
{
    while lefts.len() as u64 <= at {
        lefts.push(Rows::new(alloc))?;
    }
    Ok(())
}
