// Terms with a number each, found by their head and arguments.
ghost use Rattle.std.specs.Prelude.{◌≡◌, ℕ, ◌<◌, List, [], ◌∷◌, ◌++◌, length, Option, Some, None, IfOk, OnOk, OnErr};
ghost use Rattle.lq_prover_congruence.specs.Classes.Terms.{Term, find_in, term_in};
ghost use Rattle.lq_prover_congruence.specs.Classes.Keys.{term_of};

use crate::classes::head::Head;
use indexmap::IndexMap;
use std::alloc::{AllocError, Global};
use std::marker::Model;

/// A head and arguments.
#[derive(Debug, Drop, PartialEq, Eq, Hash)]
pub(crate) struct Key {
    pub(crate) head: Head,
    pub(crate) args: Vec<u64>,
}

/// Terms with a number each, in the order in which they came.
#[derive(Drop)]
pub(crate) struct Table {
    entries: IndexMap<Key, u64>,
}

impl Model for Table {
    ghost use Rattle.std.specs.Prelude.{List, ℕ};
    ghost use Rattle.lq_prover_congruence.specs.Classes.Terms.{Term};
    ghost use Rattle.lq_prover_congruence.specs.Classes.Keys.{entries_of};

    ghost Value = { List (Term × ℕ) };

    ghost view = { λ t. entries_of t.entries.entries };
}

impl Table {
    pub(crate) fn new(alloc: Global) -> Table
        ensures { result ≡ [] }
    {
        Table {
            entries: IndexMap::new(alloc),
        }
    }

    /// The number of the term that is the same.
    pub(crate) fn find(&self, key: &Key) -> Option<u64>
        ensures { result ≡ find_in self.now (term_of key.now) }
    {
        self.entries.get(key).copied()
    }

    /// Adds a term that the table lacks.
    pub(crate) fn insert(&mut self, key: Key, number: u64) -> Result<(), AllocError>
        requires { find_in self.old (term_of key) ≡ None }
        ensures ok { OnOk result (self.new ≡ self.old ++ (term_of key, number) ∷ []) }
        ensures err { OnErr result (self.new ≡ self.old) }
    {
        self.entries.insert(key, number)?;
        Ok(())
    }

    /// Takes off the last term.
    pub(crate) fn pop(&mut self)
        requires { 0 < length self.old }
        ensures { (last : Term × ℕ) × (self.old ≡ self.new ++ last ∷ []) }
    {
        self.entries.pop();
    }

    pub(crate) fn len(&self) -> usize
        ensures { result ≡ length self.now }
    {
        self.entries.len()
    }

    /// The term at a place.
    pub(crate) fn key(&self, at: usize) -> &Key
        requires { at < length self.now }
        ensures { term_of result.now ≡ term_in self.now at }
    {
        let (key, _) = self.entries.get_index(at).unwrap();
        key
    }
}
