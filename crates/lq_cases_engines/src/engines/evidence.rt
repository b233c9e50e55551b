// An engine's answer, checked by its own evidence.
ghost use Rattle.std.specs.Prelude.{◌≡◌, ◌≢◌, IfOk};
ghost use Rattle.lq_logic_rows.specs.Answers.{Held, Conflicted, Stopped, verdict_of};
ghost use Rattle.lq_logic_rows.specs.Contradiction.{Solves};
ghost use Rattle.lq_logic_rows.specs.Row.{Valuation};
ghost use Rattle.lq_logic_rows.specs.declared.engine.Verdict.TheVariants.{Holds, Conflict};

use crate::engines::error::{CaseError, given};
use crate::engines::rows::{RowCase, TERMS};
use lq_base_numbers::fractions::{Frac, NumberPast};
use lq_logic_rows::{LinearEngine, LinearStop, Verdict, conflict_or_point};
use std::alloc::Global;

/// What an engine answers.
#[derive(Clone, Copy)]
pub(crate) enum Outcome {
    /// Its values solve the rows.
    Holds,
    /// Its multipliers make a contradiction of the rows.
    Conflict,
    /// It has no evidence for its verdict.
    Unfounded(Verdict),
    /// It stopped.
    Stops(LinearStop),
}

/// The sum and so many times a number.
fn plus(sum: &Frac, times: &Frac, number: i128) -> Result<Frac, NumberPast> {
    sum.add(&times.mul(&Frac::whole(number))?)
}

/// Whether the values of an engine solve the rows.
fn solves<E: LinearEngine>(engine: &E, rows: &[RowCase]) -> Result<bool, NumberPast>
    requires { E.last engine.now ≡ Held }
{
    for row in rows {
        let mut level = Frac::whole(row.constant);
        for (term, coefficient) in &row.parts {
            level = plus(&level, &engine.value(*term), *coefficient)?;
        }
        if level.numer() > 0 || (row.equal && !level.is_zero()) {
            return Ok(false);
        }
    }
    Ok(true)
}

/// Rows, each times its multiplier.
#[derive(Drop)]
struct Sums {
    parts: Vec<Frac>,
    constant: Frac,
    used: Vec<bool>,
}

impl Sums {
    fn new(alloc: Global, rows: usize) -> Result<Sums, CaseError> {
        let mut parts = Vec::new(alloc);
        for _ in 0..TERMS {
            parts.push(Frac::whole(0))?;
        }
        let mut used = Vec::new(alloc);
        for _ in 0..rows {
            used.push(false)?;
        }
        let constant = Frac::whole(0);
        Ok(Sums {
            parts,
            constant,
            used,
        })
    }

    /// Adds a row times its multiplier. It is false where the multiplier may not be, or the row was added before.
    fn add(&mut self, row: &RowCase, tag: usize, multiplier: &Frac) -> Result<bool, CaseError> {
        if multiplier.numer() < 0 && !row.equal {
            return Ok(false);
        }
        let used = given(self.used.get_mut(tag))?;
        if *used {
            return Ok(false);
        }
        *used = true;
        for (term, coefficient) in &row.parts {
            let part = given(self.parts.get_mut(*term as usize))?;
            *part = plus(part, multiplier, *coefficient)?;
        }
        self.constant = plus(&self.constant, multiplier, row.constant)?;
        Ok(true)
    }

    /// Whether the sum is a constant above 0.
    fn is_contradiction(&self) -> bool {
        for part in &self.parts {
            if !part.is_zero() {
                return false;
            }
        }
        self.constant.numer() > 0
    }
}

/// Whether the multipliers of an engine make a contradiction of the rows, each used once.
fn contradicts<E: LinearEngine>(
    alloc: Global,
    engine: &E,
    rows: &[RowCase],
) -> Result<bool, CaseError>
    requires { E.last engine.now ≡ Conflicted }
{
    let mut sums = Sums::new(alloc, rows.len())?;
    for at in 0..rows.len() {
        let Some((tag, multiplier)) = engine.multiplier(at) else {
            return Ok(sums.is_contradiction());
        };
        let Some(row) = rows.get(tag as usize) else {
            return Ok(false);
        };
        if !sums.add(row, tag as usize, &multiplier)? {
            return Ok(false);
        }
    }
    Ok(engine.multiplier(rows.len()).is_none() && sums.is_contradiction())
}

/// The outcome where there is evidence for the verdict, or there isn't.
fn founded(verdict: Verdict, evidence: bool) -> Outcome {
    if !evidence {
        return Outcome::Unfounded(verdict);
    }
    match verdict {
        Verdict::Holds => Outcome::Holds,
        Verdict::Conflict => Outcome::Conflict,
    }
}

/// The verdict of an engine: what it says of the rows that stand, whatever the engine.
fn decide<E: LinearEngine>(engine: &mut E) -> Result<Verdict, LinearStop>
    requires { E.last engine.old ≢ Stopped }
    ensures solved { IfOk result (λ verdict. verdict ≡ Holds → Solves (E.point engine.new) (E.standing engine.old)) }
    ensures refuted { IfOk result (λ verdict. verdict ≡ Conflict → (v : Valuation)
        → ¬ (Solves v (E.standing engine.old))) }
    ensures answer { IfOk result (λ verdict. E.last engine.new ≡ verdict_of verdict) }
    ensures limits { E.limits engine.new ≡ E.limits engine.old }
    ensures stands { E.standing engine.new ≡ E.standing engine.old }
{
    match engine.check() {
        Ok(verdict) => {
            conflict_or_point();
            Ok(verdict)
        }
        Err(stop) => Err(stop),
    }
}

/// What an engine answers of the rows that stand.
pub(crate) fn ask_engine<E: LinearEngine>(
    alloc: Global,
    engine: &mut E,
    rows: &[RowCase],
) -> Result<Outcome, CaseError>
    requires { E.last engine.old ≢ Stopped }
    ensures limits { E.limits engine.new ≡ E.limits engine.old }
    ensures stands { E.standing engine.new ≡ E.standing engine.old }
{
    match decide(engine) {
        Ok(Verdict::Holds) => Ok(founded(Verdict::Holds, solves(engine, rows)?)),
        Ok(Verdict::Conflict) => Ok(founded(Verdict::Conflict, contradicts(alloc, engine, rows)?)),
        Err(stop) => Ok(Outcome::Stops(stop)),
    }
}
