// The numbers of objects.
ghost use Rattle.std.specs.Prelude.{IsTrue, map};
ghost use Rattle.lq_logic_predicates.specs.Table.{all_differ};
ghost use Rattle.lq_logic_predicates.specs.TermView.{sum_of};

use indexmap::IndexSet;
use lq_logic_predicates::Term;
use std::alloc::{AllocError, Global};

/// Objects, numbered from 0 by their first appearance.
#[derive(Drop)]
pub struct ObjectTable {
    terms: IndexSet<Term>,
    ghost distinct: { IsTrue (all_differ (map sum_of terms.keys)) },
}

impl ObjectTable {
    ghost use Rattle.std.specs.Prelude.{◌≡◌, ◌<◌, [], true, IsTrue, Some, OnErr, OnOk, length, map, slice_get};
    ghost use Rattle.lq_prover_case.specs.Equations.Naming.{objects_of};
    ghost use Rattle.lq_logic_predicates.specs.Table.{all_differ, has_term, with_term};
    ghost use Rattle.lq_logic_predicates.specs.TermView.{sum_of};

    /// No objects.
    pub fn new(alloc: Global) -> ObjectTable
        ensures { objects_of result ≡ [] }
    {
        ObjectTable {
            terms: IndexSet::new(alloc),
        }
    }

    /// How many objects there are. No object has two numbers.
    pub fn len(&self) -> usize
        ensures count { result ≡ length (objects_of self.now) }
        ensures distinct { IsTrue (all_differ (objects_of self.now)) }
    {
        self.terms.len()
    }

    /// The object of this number.
    pub fn object(&self, at: usize) -> &Term
        requires { at < length (objects_of self.now) }
        ensures { slice_get (objects_of self.now) at ≡ Some (sum_of result.now) }
    {
        &self.terms[at]
    }

    /// Adds an object that may be there. After a refusal the objects are as before.
    pub fn add(&mut self, alloc: Global, object: &Term) -> Result<(), AllocError>
        ensures added { OnOk result (objects_of self.new ≡ with_term (objects_of self.old) (sum_of object.now)) }
        ensures refused { OnErr result (objects_of self.new ≡ objects_of self.old) }
    {
        if self.terms.get_index_of(object).is_none() {
            let copied = object.copy(alloc)?;
            self.terms.insert_full(copied)?;
        }
        Ok(())
    }

    /// The objects in order.
    pub fn as_set(&self) -> &IndexSet<Term>
        ensures { map sum_of result.now.keys ≡ objects_of self.now }
    {
        &self.terms
    }

    /// The number of an object.
    pub fn number(&self, object: &Term) -> u64
        requires { has_term (objects_of self.now) (sum_of object.now) ≡ true }
        ensures { slice_get (objects_of self.now) result ≡ Some (sum_of object.now) }
    {
        match self.terms.get_index_of(object) {
            Some(at) => at as u64,
            None => unreachable!(),
        }
    }
}
