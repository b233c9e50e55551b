// Whether facts of a path can't all hold, by what a leaf of a proof tree says of them.
use crate::prover::error::{CaseError, given};
use crate::prover::path::Path;
use lq_base_numbers::fractions::{Frac, NumberPast};
use lq_logic_predicates::{Nnf, Term};
use lq_logic_rows::LinearRow;
use lq_prover_proof_tree::trees::{CaseProof, Multipliers, Tags};
use std::alloc::{AllocError, Global};

/// The sum of rows, each times its multiplier.
#[derive(Drop)]
struct Sums {
    parts: Vec<Frac>,
    constant: Frac,
    used: Vec<bool>,
}

/// A sum and so many times a number.
fn plus(sum: &Frac, times: &Frac, number: i128) -> Result<Frac, NumberPast> {
    sum.add(&times.mul(&Frac::whole(number))?)
}

impl Sums {
    /// No rows, of facts numbered up to a number and of so many terms.
    fn new(alloc: Global, facts: usize, terms: u64) -> Result<Sums, AllocError> {
        let mut parts = Vec::new(alloc);
        for _ in 0..terms {
            parts.push(Frac::whole(0))?;
        }
        let mut used = Vec::new(alloc);
        for _ in 0..facts {
            used.push(false)?;
        }
        Ok(Sums {
            parts,
            constant: Frac::whole(0),
            used,
        })
    }

    /// Notes that a fact is used. It is false where it was before, or there is no such fact.
    fn is_new(&mut self, number: u64) -> bool {
        let Some(at) = number.checked_sub(1) else {
            return false;
        };
        match self.used.get_mut(at as usize) {
            Some(used) => {
                let before = *used;
                *used = true;
                !before
            }
            None => false,
        }
    }

    fn add(&mut self, row: &LinearRow, multiplier: &Frac) -> Result<(), CaseError> {
        for (term, coefficient) in row.parts() {
            let part = given(self.parts.get_mut(*term as usize))?;
            *part = plus(part, multiplier, *coefficient)?;
        }
        self.constant = plus(&self.constant, multiplier, row.constant())?;
        Ok(())
    }

    /// Whether the sum is a constant above 0.
    fn is_contradiction(&self) -> bool {
        for part in &self.parts {
            if !part.is_zero() {
                return false;
            }
        }
        self.constant.numer() > 0
    }
}

/// Whether rows, each named once and with a multiplier that it may have, sum to a constant above 0.
fn rows_clash(
    alloc: Global,
    multipliers: &Multipliers,
    path: &Path<'_>,
    terms: u64,
) -> Result<bool, CaseError> {
    let mut sums = Sums::new(alloc, path.len(), terms)?;
    for (number, multiplier) in multipliers.as_slice() {
        let Some(row) = path.row(*number) else {
            return Ok(false);
        };
        if !sums.is_new(*number) || (multiplier.numer() < 0 && !row.equal()) {
            return Ok(false);
        }
        sums.add(row, multiplier)?;
    }
    Ok(sums.is_contradiction())
}

/// Whether two facts give one flag two values.
fn flags_clash(first: u64, second: u64, path: &Path<'_>) -> bool {
    match (path.literal(first), path.literal(second)) {
        (Some(Nnf::Flag(x, first)), Some(Nnf::Flag(y, second))) => *x == *y && *first != *second,
        _ => false,
    }
}

/// The object that a fact joins to another one.
fn joined_to<'a>(number: u64, object: &Term, path: &Path<'a>) -> Option<&'a Term> {
    match path.literal(number)? {
        Nnf::Same(a, b, true) if *a == *object => Some(b),
        Nnf::Same(a, b, true) if *b == *object => Some(a),
        _ => None,
    }
}

/// Whether the facts of these numbers form a chain from one object to another.
pub(crate) fn are_joined<'a>(tags: &Tags, from: &'a Term, to: &Term, path: &Path<'a>) -> bool {
    let mut object = from;
    for number in tags.as_slice() {
        match joined_to(*number, object, path) {
            Some(next) => object = next,
            None => return false,
        }
    }
    *object == *to
}

/// Whether a fact says of two objects that they differ which others join.
fn merges_clash(number: u64, tags: &Tags, path: &Path<'_>) -> bool {
    match path.literal(number) {
        Some(Nnf::Same(a, b, false)) => are_joined(tags, a, b, path),
        _ => false,
    }
}

/// Whether the facts of a leaf clash.
pub(crate) fn clashes(
    alloc: Global,
    leaf: &CaseProof,
    path: &Path<'_>,
    terms: u64,
) -> Result<bool, CaseError> {
    match leaf {
        CaseProof::Rows(multipliers) => rows_clash(alloc, multipliers, path, terms),
        CaseProof::Flags(first, second) => Ok(flags_clash(*first, *second, path)),
        CaseProof::Merges(number, tags) => Ok(merges_clash(*number, tags, path)),
    }
}
