// Whether a chain of nodes `Equal` down to a leaf refutes the literals of a case.
use crate::decide::error::{CaseError, given};
use lq_base_numbers::fractions::Frac;
use lq_logic_predicates::{Term, TermTable};
use lq_logic_rows::LinearRow;
use lq_prover_decide::{Fact, Literals};
use lq_prover_proof_tree::literals::applications;
use lq_prover_proof_tree::trees::{CaseProof, Multipliers, ProofTree, Tags};
use std::alloc::{AllocError, Global};

/// What is known: the literals, and then the pairs of terms of which nodes said that they are equal.
#[derive(Drop)]
struct Known<'a> {
    facts: &'a [Fact],
    equal: Vec<(u64, u64)>,
    table: &'a TermTable,
    applications: Vec<u64>,
}

/// The sum of rows, each times its multiplier.
#[derive(Drop)]
struct Sum {
    parts: Vec<Frac>,
    constant: Frac,
}

impl Sum {
    /// No rows, over so many terms.
    fn new(alloc: Global, terms: u64) -> Result<Sum, AllocError> {
        let mut parts = Vec::new(alloc);
        for _ in 0..terms {
            parts.push(Frac::whole(0))?;
        }
        Ok(Sum {
            parts,
            constant: Frac::whole(0),
        })
    }

    /// Adds a multiple of a term.
    fn add_part(&mut self, term: u64, times: &Frac) -> Result<(), CaseError> {
        let part = given(self.parts.get_mut(term as usize))?;
        *part = part.add(times)?;
        Ok(())
    }

    fn add_row(&mut self, row: &LinearRow, times: &Frac) -> Result<(), CaseError> {
        for (term, coefficient) in row.parts() {
            self.add_part(*term, &times.mul(&Frac::whole(*coefficient))?)?;
        }
        let constant = times.mul(&Frac::whole(row.constant()))?;
        self.constant = self.constant.add(&constant)?;
        Ok(())
    }

    /// Whether it is a constant above 0.
    fn is_contradiction(&self) -> bool {
        self.parts.iter().all(|part| part.is_zero()) && self.constant.numer() > 0
    }
}

impl<'a> Known<'a> {
    /// The literal of this number, counted from 1.
    fn literal(&self, number: u64) -> Option<&'a Fact> {
        self.facts.get(number.checked_sub(1)? as usize)
    }

    /// The terms of which the fact of this number says that they are equal.
    fn equal(&self, number: u64) -> Option<(u64, u64)> {
        let at = (number.checked_sub(1)? as usize).checked_sub(self.facts.len())?;
        self.equal.get(at).copied()
    }

    /// The number of an application's term, and the term.
    fn application(&self, number: u64) -> Option<(u64, &'a Term)> {
        let at = *self.applications.get(number.checked_sub(1)? as usize)?;
        let table = self.table;
        if at < table.len() {
            Some((at, table.term(at)))
        } else {
            None
        }
    }

    /// The object that a literal joins to another one.
    fn joined_to(&self, number: u64, object: &Term) -> Option<&'a Term> {
        match self.literal(number)? {
            Fact::Same(a, b, true) if *a == *object => Some(b),
            Fact::Same(a, b, true) if *b == *object => Some(a),
            _ => None,
        }
    }

    /// Whether literals form a chain from one object to another.
    fn are_joined(&self, tags: &Tags, from: &'a Term, to: &Term) -> bool {
        let mut object = from;
        for number in tags.as_slice() {
            match self.joined_to(*number, object) {
                Some(next) => object = next,
                None => return false,
            }
        }
        *object == *to
    }

    /// The terms of two applications of one function, where literals join their objects.
    fn equated(&self, first: u64, second: u64, tags: &Tags) -> Option<(u64, u64)> {
        let (s, left) = self.application(first)?;
        let (t, right) = self.application(second)?;
        let (a, b) = match (left, right) {
            (Term::Length(a), Term::Length(b)) => (a, b),
            (Term::Measure(f, a), Term::Measure(g, b)) if *f == *g => (a, b),
            _ => return None,
        };
        if self.are_joined(tags, a, b) {
            Some((s, t))
        } else {
            None
        }
    }

    /// Adds a fact to a sum. It is false where the fact is no row, or mayn't have this multiplier.
    fn add_to(&self, sum: &mut Sum, number: u64, times: &Frac) -> Result<bool, CaseError> {
        if let Some((s, t)) = self.equal(number) {
            sum.add_part(s, times)?;
            sum.add_part(t, &times.neg()?)?;
            return Ok(true);
        }
        match self.literal(number) {
            Some(Fact::Row(row)) if row.equal() || times.numer() >= 0 => {
                sum.add_row(row, times)?;
                Ok(true)
            }
            _ => Ok(false),
        }
    }

    fn rows_clash(&self, alloc: Global, multipliers: &Multipliers) -> Result<bool, CaseError> {
        let mut sum = Sum::new(alloc, self.table.len())?;
        for (number, times) in multipliers.as_slice() {
            if !self.add_to(&mut sum, *number, times)? {
                return Ok(false);
            }
        }
        Ok(sum.is_contradiction())
    }

    fn clashes(&self, alloc: Global, leaf: &CaseProof) -> Result<bool, CaseError> {
        match leaf {
            CaseProof::Rows(multipliers) => self.rows_clash(alloc, multipliers),
            CaseProof::Flags(first, second) => {
                match (self.literal(*first), self.literal(*second)) {
                    (Some(Fact::Flag(x, one)), Some(Fact::Flag(y, other))) => {
                        Ok(*x == *y && *one != *other)
                    }
                    _ => Ok(false),
                }
            }
            CaseProof::Merges(number, tags) => match self.literal(*number) {
                Some(Fact::Same(a, b, false)) => Ok(self.are_joined(tags, a, b)),
                _ => Ok(false),
            },
        }
    }

    /// Whether a tree refutes what is known.
    fn is_refuted(&mut self, alloc: Global, tree: &ProofTree) -> Result<bool, CaseError> {
        match tree {
            ProofTree::Equal(first, second, tags, inner) => {
                match self.equated(*first, *second, tags) {
                    Some(terms) => self.equal.push(terms)?,
                    None => return Ok(false),
                }
                self.is_refuted(alloc, inner)
            }
            ProofTree::Leaf(leaf) => self.clashes(alloc, leaf),
            ProofTree::Any(_, _) | ProofTree::Apart(_, _, _) | ProofTree::False(_) => Ok(false),
        }
    }
}

/// Whether a tree refutes the literals of a case.
pub(crate) fn is_refuted(
    alloc: Global,
    literals: &Literals,
    tree: &ProofTree,
) -> Result<bool, CaseError> {
    let table = literals.table();
    let mut known = Known {
        facts: literals.facts().as_slice(),
        equal: Vec::new(alloc),
        table,
        applications: applications(alloc, table)?,
    };
    known.is_refuted(alloc, tree)
}

/// Writes the forms of a tree's nodes from the root down.
pub(crate) fn push_forms(out: &mut String, tree: &ProofTree) -> Result<(), AllocError> {
    match tree {
        ProofTree::Equal(_, _, _, inner) => {
            out.push_str("equal ")?;
            push_forms(out, inner)
        }
        ProofTree::Leaf(CaseProof::Rows(_)) => out.push_str("rows"),
        ProofTree::Leaf(CaseProof::Flags(_, _)) => out.push_str("flags"),
        ProofTree::Leaf(CaseProof::Merges(_, _)) => out.push_str("objects"),
        ProofTree::Any(_, _) | ProofTree::Apart(_, _, _) | ProofTree::False(_) => {
            out.push_str("another form")
        }
    }
}
