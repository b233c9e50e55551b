// The applications of an implication, and the rows of the ways in which two of them stand.
use crate::prover::error::CaseError;
use crate::prover::path::Path;
use lq_logic_predicates::{Closed, LinearRow, Term, TermTable, gather};
use lq_prover_proof_tree::literals::applications;
use std::alloc::{AllocError, Global};

/// The terms of an implication, and which of them are applications.
#[derive(Drop)]
pub(crate) struct Applications<'a> {
    alloc: Global,
    terms: &'a TermTable,
    copied: TermTable,
    numbers: Vec<u64>,
}

/// A function of two numbers.
#[derive(Clone, Copy, PartialEq, Eq)]
enum Operation {
    Product,
    Quotient,
    Remainder,
}

/// An application of such a function.
#[derive(Clone, Copy)]
pub(crate) struct Applied<'a> {
    whole: &'a Term,
    operation: Operation,
    first: &'a Term,
    second: &'a Term,
}

/// The term as an application to two numbers; a product with a literal is none.
fn application_of(whole: &Term) -> Option<Applied<'_>> {
    let (operation, first, second) = match whole {
        Term::Mul(a, b) => (Operation::Product, a, b),
        Term::Div(a, b) => (Operation::Quotient, a, b),
        Term::Mod(a, b) => (Operation::Remainder, a, b),
        _ => return None,
    };
    if operation == Operation::Product
        && (matches!(**first, Term::Whole(_)) || matches!(**second, Term::Whole(_)))
    {
        return None;
    }
    Some(Applied {
        whole,
        operation,
        first,
        second,
    })
}

impl<'a> Applications<'a> {
    /// Those of an implication, whose terms are those of the table.
    pub(crate) fn new(
        alloc: Global,
        implication: &Closed,
        terms: &'a TermTable,
    ) -> Result<Applications<'a>, AllocError> {
        Ok(Applications {
            alloc,
            terms,
            copied: implication.terms(alloc)?,
            numbers: applications(alloc, terms)?,
        })
    }

    /// How many terms there are.
    pub(crate) fn count(&self) -> u64 {
        self.terms.len()
    }

    /// The application of this number, counted from 1.
    pub(crate) fn term(&self, number: u64) -> Option<&'a Term> {
        let at = *self.numbers.get(number.checked_sub(1)? as usize)?;
        let terms = self.terms;
        if at < terms.len() {
            Some(terms.term(at))
        } else {
            None
        }
    }

    /// Two applications of one function of two numbers.
    pub(crate) fn two(&self, first: u64, second: u64) -> Option<(Applied<'a>, Applied<'a>)> {
        let s = application_of(self.term(first)?)?;
        let t = application_of(self.term(second)?)?;
        if s.operation == t.operation {
            Some((s, t))
        } else {
            None
        }
    }

    /// The objects of two lengths, or of two values of one measure.
    pub(crate) fn objects(&self, first: u64, second: u64) -> Option<(&'a Term, &'a Term)> {
        match (self.term(first)?, self.term(second)?) {
            (Term::Length(a), Term::Length(b)) => Some((a, b)),
            (Term::Measure(f, a), Term::Measure(g, b)) if *f == *g => Some((a, b)),
            _ => None,
        }
    }

    fn row(
        &mut self,
        left: &Term,
        right: &Term,
        added: i128,
        equal: bool,
    ) -> Result<LinearRow, CaseError> {
        let row = gather(self.alloc, left, right, added, equal, &mut self.copied)?;
        Ok(row)
    }

    /// Adds the row that two terms are equal.
    pub(crate) fn add_equal(
        &mut self,
        left: &Term,
        right: &Term,
        path: &mut Path<'_>,
    ) -> Result<(), CaseError> {
        let row = self.row(left, right, 0, true)?;
        path.add_row(row)?;
        Ok(())
    }

    /// Adds the row that a term plus 1 is at most another.
    fn add_below(
        &mut self,
        left: &Term,
        right: &Term,
        path: &mut Path<'_>,
    ) -> Result<(), CaseError> {
        let row = self.row(left, right, 1, false)?;
        path.add_row(row)?;
        Ok(())
    }

    /// Adds the rows of one of the five ways in which two applications stand, counted from 0.
    pub(crate) fn add_way(
        &mut self,
        way: usize,
        s: &Applied<'_>,
        t: &Applied<'_>,
        path: &mut Path<'_>,
    ) -> Result<(), CaseError> {
        match way {
            0 => {
                self.add_equal(s.first, t.first, path)?;
                self.add_equal(s.second, t.second, path)?;
                self.add_equal(s.whole, t.whole, path)
            }
            1 => self.add_below(s.first, t.first, path),
            2 => self.add_below(t.first, s.first, path),
            3 => self.add_below(s.second, t.second, path),
            4 => self.add_below(t.second, s.second, path),
            _ => Err(CaseError::NotACase),
        }
    }
}
