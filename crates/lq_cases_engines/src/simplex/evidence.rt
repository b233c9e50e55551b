// A tableau's answer, checked by its own evidence.
ghost use Rattle.std.specs.Prelude.{◌≡◌};
ghost use Rattle.lq_logic_rows.specs.Answers.{Held, Conflicted};
ghost use Rattle.lq_prover_simplex.specs.Table.{table_last};

use lq_base_numbers::fractions::Frac;
use lq_logic_rows::{LinearEngine, LinearRow};
use lq_prover_simplex::Tableau;
use std::alloc::Global;

/// The sum and so many times a number, where it can be written.
fn plus(sum: &Frac, times: &Frac, number: i128) -> Option<Frac> {
    let product = times.mul(&Frac::whole(number)).ok()?;
    sum.add(&product).ok()
}

/// Whether the values of a tableau solve the rows.
pub(crate) fn solves(tableau: &Tableau, rows: &[LinearRow]) -> Option<bool>
    requires { table_last tableau.now ≡ Held }
{
    for row in rows {
        let mut level = Frac::whole(row.constant());
        for (term, coefficient) in row.parts() {
            level = plus(&level, &tableau.value(*term), *coefficient)?;
        }
        if level.numer() > 0 || (row.equal() && !level.is_zero()) {
            return Some(false);
        }
    }
    Some(true)
}

/// Rows, each times its multiplier.
#[derive(Drop)]
struct Sums {
    parts: Vec<Frac>,
    constant: Frac,
    used: Vec<bool>,
}

impl Sums {
    fn new(alloc: Global, rows: usize) -> Option<Sums> {
        Some(Sums {
            parts: vec![in alloc; Frac::whole(0); 5].ok()?,
            constant: Frac::whole(0),
            used: vec![in alloc; false; rows].ok()?,
        })
    }

    /// Adds a row times its multiplier. It is false where the multiplier may not be, or the row was added before.
    fn add(&mut self, row: &LinearRow, tag: usize, multiplier: &Frac) -> Option<bool> {
        if multiplier.numer() < 0 && !row.equal() {
            return Some(false);
        }
        let used = self.used.get_mut(tag)?;
        if *used {
            return Some(false);
        }
        *used = true;
        for (term, coefficient) in row.parts() {
            let part = self.parts.get_mut(*term as usize)?;
            *part = plus(part, multiplier, *coefficient)?;
        }
        self.constant = plus(&self.constant, multiplier, row.constant())?;
        Some(true)
    }

    /// Whether the sum is a constant above 0.
    fn is_contradiction(&self) -> bool {
        for part in &self.parts {
            if !part.is_zero() {
                return false;
            }
        }
        self.constant.numer() > 0
    }
}

/// Whether the multipliers of a tableau make a contradiction of the rows, each used once.
pub(crate) fn contradicts(alloc: Global, tableau: &Tableau, rows: &[LinearRow]) -> Option<bool>
    requires { table_last tableau.now ≡ Conflicted }
{
    let mut sums = Sums::new(alloc, rows.len())?;
    for at in 0..rows.len() {
        let Some((tag, multiplier)) = tableau.multiplier(at) else {
            return Some(sums.is_contradiction());
        };
        let Some(row) = rows.get(tag as usize) else {
            return Some(false);
        };
        if !sums.add(row, tag as usize, &multiplier)? {
            return Some(false);
        }
    }
    Some(tableau.multiplier(rows.len()).is_none() && sums.is_contradiction())
}
