// Rows as a case writes them: `1 t0 + -1 t1 + 3 <= 0`, `1 t0 + -5 = 0`. A coefficient of 1 and a constant of 0 may be left out.
ghost use Rattle.std.specs.Prelude.{◌≡◌, ◌≢◌, ◌≤◌, ◌<◌, ◌+◌, pos, IfOk, IsTrue};
ghost use Rattle.lq_prover_differences.specs.Table.{IsDifference};
ghost use Rattle.lq_cases_engines.specs.Engines.Rows.{IsBelow};

use crate::engines::error::{CaseError, given};
use crate::engines::numbers::whole;
use lq_logic_rows::LinearRow;
use std::alloc::Global;
use std::mem;

/// The terms of a case are those below this number.
pub(crate) const TERMS: u64 = 64;

/// A row of a case: coefficients by the numbers of their terms, the constant, and whether it is an equation.
#[derive(Drop)]
pub(crate) struct RowCase {
    pub(crate) parts: Vec<(u64, i128)>,
    pub(crate) constant: i128,
    pub(crate) equal: bool,
}

/// A row in the making.
#[derive(Drop)]
struct Making {
    alloc: Global,
    rows: Vec<RowCase>,
    parts: Vec<(u64, i128)>,
    number: Option<i128>,
}

/// The number of a term: `t3`.
fn term_number(word: &str) -> Option<u64> {
    word.strip_prefix('t')?.parse::<u64>().ok()
}

impl Making {
    fn finish(&mut self, equal: bool) -> Result<(), CaseError> {
        let parts = mem::replace(&mut self.parts, Vec::new(self.alloc));
        let constant = self.number.take().unwrap_or(0);
        self.rows.push(RowCase {
            parts,
            constant,
            equal,
        })?;
        Ok(())
    }

    fn take(&mut self, word: &str) -> Result<(), CaseError> {
        if word == "+" {
            return Ok(());
        }
        if let Some(term) = term_number(word) {
            let coefficient = self.number.take().unwrap_or(1);
            self.parts.push((term, coefficient))?;
            return Ok(());
        }
        if self.number.is_some() {
            return Err(CaseError::NotACase);
        }
        self.number = Some(given(whole(word))?);
        Ok(())
    }
}

/// The rows that the words write.
pub(crate) fn rows_of(alloc: Global, words: &[&str]) -> Result<Vec<RowCase>, CaseError> {
    let mut making = Making {
        alloc,
        rows: Vec::new(alloc),
        parts: Vec::new(alloc),
        number: None,
    };
    let mut relation = None;
    for word in words {
        match relation {
            Some(equal) => {
                if *word != "0" {
                    return Err(CaseError::NotACase);
                }
                making.finish(equal)?;
                relation = None;
            }
            None => match *word {
                "=" => relation = Some(true),
                "<=" => relation = Some(false),
                _ => making.take(word)?,
            },
        }
    }
    if relation.is_some() || making.number.is_some() || !making.parts.is_empty() {
        return Err(CaseError::NotACase);
    }
    Ok(making.rows)
}

/// Adds a term.
fn with(
    mut parts: Vec<(u64, i128)>,
    next: u64,
    term: u64,
    coefficient: i128,
) -> Result<Vec<(u64, i128)>, CaseError>
    requires below { IsBelow next parts.items }
    requires order { next ≤ term }
    requires some { coefficient ≢ pos 0 }
    ensures { IfOk result (λ made. IsBelow (term + 1) made.items) }
{
    match parts.push((term, coefficient)) {
        Ok(()) => Ok(parts),
        Err(_) => Err(CaseError::Memory),
    }
}

/// The row, whose terms ascend and have coefficients other than 0.
pub(crate) fn linear_row(alloc: Global, row: &RowCase) -> Result<LinearRow, CaseError>
    ensures { IfOk result (λ made. IsBelow 64 made.parts) }
{
    let mut parts = Vec::new(alloc);
    let mut next = 0;
    for (term, coefficient) in &row.parts {
        if *term < next {
            return Err(CaseError::NotACase);
        }
        if *term >= TERMS {
            return Err(CaseError::NotACase);
        }
        if *coefficient == 0 {
            return Err(CaseError::NotACase);
        }
        parts = with(parts, next, *term, *coefficient)?;
        next = *term + 1;
    }
    Ok(LinearRow::new(parts, row.constant, row.equal))
}

/// Whether these are the parts of a difference row.
pub(crate) fn is_difference(parts: &[(u64, i128)]) -> bool
    ensures { IsTrue result → IsDifference parts.now }
{
    match parts {
        [] => true,
        [(_, first)] => *first == 1 || *first == -1,
        [(_, first), (_, second)] => {
            (*first == 1 && *second == -1) || (*first == -1 && *second == 1)
        }
        _ => false,
    }
}
