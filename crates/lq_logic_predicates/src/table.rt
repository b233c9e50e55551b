// The table that numbers terms.
ghost use Rattle.std.specs.Prelude.{IsTrue, map};
ghost use Rattle.lq_logic_predicates.specs.Table.{all_differ};
ghost use Rattle.lq_logic_predicates.specs.TermView.{sum_of};

use crate::term::Term;
use indexmap::IndexSet;
use std::alloc::{AllocError, Global};

/// Terms, numbered from 0 by their first appearance.
#[derive(Drop)]
pub struct TermTable {
    terms: IndexSet<Term>,
    ghost distinct: { IsTrue (all_differ (map sum_of terms.keys)) },
}

impl TermTable {
    ghost use Rattle.std.specs.Prelude.{◌≡◌, ◌<◌, IsTrue, List, [], length, slice_get, Some, IfOk, OnOk, OnErr, IfSome, is_some};
    ghost use Rattle.lq_logic_predicates.specs.Table.{all_differ, has_term, index_of, with_term, Extends};
    ghost use Rattle.lq_logic_predicates.specs.TermView.{sum_of};
    ghost use Rattle.lq_logic_predicates.specs.TableView.{terms_of};

    /// A table without terms.
    pub fn new(alloc: Global) -> Result<TermTable, AllocError>
        ensures { IfOk result (λ table. terms_of table ≡ []) }
    {
        Ok(TermTable {
            terms: IndexSet::new(alloc),
        })
    }

    /// How many terms are numbered. No term has two numbers.
    pub fn len(&self) -> u64
        ensures count { result ≡ length (terms_of self.now) }
        ensures distinct { IsTrue (all_differ (terms_of self.now)) }
    {
        self.terms.len() as u64
    }

    /// The term of this number.
    pub fn term(&self, at: u64) -> &Term
        requires { at < length (terms_of self.now) }
        ensures { slice_get (terms_of self.now) at ≡ Some (sum_of result.now) }
    {
        &self.terms[at as usize]
    }

    /// The number of a term, and None where the table lacks it.
    pub fn find(&self, term: &Term) -> Option<u64>
        ensures number { IfSome result (λ at. at ≡ index_of (terms_of self.now) (sum_of term.now)) }
        ensures whether { is_some result ≡ has_term (terms_of self.now) (sum_of term.now) }
    {
        let at = self.terms.get_index_of(term)?;
        Some(at as u64)
    }

    // The number of a term, the next one where the table lacks it.
    pub(crate) fn number(&mut self, alloc: Global, term: &Term) -> Result<u64, AllocError>
        ensures added { OnOk result (terms_of self.new ≡ with_term (terms_of self.old) (sum_of term.now)) }
        ensures number { IfOk result (λ at. at ≡ index_of (terms_of self.new) (sum_of term.now)) }
        ensures err { OnErr result (terms_of self.new ≡ terms_of self.old) }
    {
        if let Some(at) = self.terms.get_index_of(term) {
            return Ok(at as u64);
        }
        let copied = term.copy(alloc)?;
        let (at, _) = self.terms.insert_full(copied)?;
        Ok(at as u64)
    }
}
