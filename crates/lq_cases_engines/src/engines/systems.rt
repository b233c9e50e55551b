// Cases of rows: `system ROWS`, `pivots LIMIT ROWS`, `values ROWS`, `multipliers ROWS`, `again ROWS then ROWS then ROWS`,
// `generated SEED COUNT`, `generated SEED COUNT limits`.
ghost use Rattle.std.specs.Prelude.{◌≡◌, ◌≢◌, ◌<◌, [], length};
ghost use Rattle.lq_logic_rows.specs.Answers.{Stopped};
ghost use Rattle.lq_logic_rows.specs.Contradiction.{Tagged};
ghost use Rattle.lq_logic_rows.specs.Row.{Row};
ghost use Rattle.lq_cases_engines.specs.Engines.Rows.{AreByPlace, IsAsked};

use crate::engines::chains::bounded;
use crate::engines::engines::{ROWS, outcome_of, take_rows};
use crate::engines::error::{CaseError, given};
use crate::engines::evidence::Outcome;
use crate::engines::printing::{push_fraction, push_past};
use crate::engines::rows::{RowCase, TERMS, rows_of};
use lq_base_numbers::fractions::Frac;
use lq_logic_rows::{LinearEngine, LinearStop, Verdict};
use lq_prover_differences::DistanceTable;
use lq_prover_simplex::Tableau;
use std::alloc::{AllocError, Global};
use std::fmt::Write;

/// The pivots that a check may make where the case names no limit.
const PIVOTS: u64 = 1000;

fn push_outcome(out: &mut String, outcome: &Outcome) -> Result<(), AllocError> {
    match outcome {
        Outcome::Holds => out.push_str("holds"),
        Outcome::Conflict => out.push_str("conflict"),
        Outcome::Unfounded(Verdict::Holds) => out.push_str("holds without a point"),
        Outcome::Unfounded(Verdict::Conflict) => out.push_str("conflict without a contradiction"),
        Outcome::Stops(LinearStop::Number(past)) => push_past(out, past),
        Outcome::Stops(LinearStop::Pivots(limit)) => write!(out, "spent {limit} pivots"),
        Outcome::Stops(LinearStop::Memory) => out.push_str("memory"),
    }
}

/// The outcome of the tableau.
pub(crate) fn by_tableau(
    alloc: Global,
    limit: u64,
    rows: &[RowCase],
) -> Result<Outcome, CaseError> {
    let mut tableau = Tableau::new(alloc, TERMS, limit)?;
    given(outcome_of(alloc, &mut tableau, rows, false)?)
}

/// The outcome of the table of distances, where the rows are difference rows.
fn by_distances(alloc: Global, rows: &[RowCase]) -> Result<Option<Outcome>, CaseError> {
    let mut distances = DistanceTable::new(alloc, TERMS, ROWS)?;
    outcome_of(alloc, &mut distances, rows, true)
}

fn push_solved(alloc: Global, out: &mut String, rows: &[RowCase]) -> Result<(), CaseError> {
    out.push_str("tableau ")?;
    push_outcome(out, &by_tableau(alloc, PIVOTS, rows)?)?;
    if let Some(other) = by_distances(alloc, rows)? {
        out.push_str(", distances ")?;
        push_outcome(out, &other)?;
    }
    Ok(())
}

/// What both engines answer.
pub(crate) fn solved(alloc: Global, words: &[&str]) -> Result<String, CaseError> {
    let mut out = String::new(alloc);
    let rows = rows_of(alloc, words)?;
    push_solved(alloc, &mut out, rows.as_slice())?;
    Ok(out)
}

/// What the tableau answers within so many pivots.
pub(crate) fn limited(alloc: Global, words: &[&str]) -> Result<String, CaseError> {
    let mut out = String::new(alloc);
    let limit = given(given(words.first())?.parse::<u64>().ok())?;
    let rows = rows_of(alloc, given(words.get(1..))?)?;
    push_outcome(&mut out, &by_tableau(alloc, limit, rows.as_slice())?)?;
    Ok(out)
}

/// What an engine answers of these rows, of which so many stand at a mark; and of the others, once it is back at the mark. It is nothing
/// where they are to be difference rows, and one isn't.
fn both_outcomes<E: LinearEngine>(
    alloc: Global,
    engine: &mut E,
    turns: &Turns,
    differences: bool,
) -> Result<Option<(Outcome, Outcome)>, CaseError>
    requires takes { (s : Tagged) (r : Row) → length s < 64 → IsAsked differences r → E.takes (E.limits engine.old) s r }
    requires placed { AreByPlace (E.standing engine.old) }
    requires going { E.last engine.old ≢ Stopped }
{
    if !take_rows(
        alloc,
        engine,
        given(turns.first.get(..turns.kept))?,
        differences,
    )? {
        return Ok(None);
    }
    let mark = engine.mark();
    let first = outcome_of(alloc, engine, &turns.first, differences)?;
    engine.back_to(mark);
    let second = outcome_of(alloc, engine, &turns.second, differences)?;
    Ok(first.zip(second))
}

/// Rows that an engine is asked of in turn. So many of the first ones are the same in both.
#[derive(Drop)]
struct Turns {
    kept: usize,
    first: Vec<RowCase>,
    second: Vec<RowCase>,
}

/// The rows of two lists of words.
fn joined<'a>(
    alloc: Global,
    kept: &[&'a str],
    more: &[&'a str],
) -> Result<Vec<RowCase>, CaseError> {
    let mut words = Vec::from_slice(alloc, kept)?;
    words.extend_from_slice(more)?;
    rows_of(alloc, &words)
}

/// The rows of three lists of words with `then` between them.
fn turns_of(alloc: Global, words: &[&str]) -> Result<Turns, CaseError> {
    let mut parts = words.split(|word| *word == "then");
    let kept = given(parts.next())?;
    let first = joined(alloc, kept, given(parts.next())?)?;
    let second = joined(alloc, kept, given(parts.next())?)?;
    if parts.next().is_some() {
        return Err(CaseError::NotACase);
    }
    let kept = rows_of(alloc, kept)?.len();
    Ok(Turns {
        kept,
        first,
        second,
    })
}

fn push_both(
    out: &mut String,
    engine: &str,
    first: &Outcome,
    second: &Outcome,
) -> Result<(), AllocError> {
    out.push_str(engine)?;
    push_outcome(out, first)?;
    out.push_str(" then ")?;
    push_outcome(out, second)
}

/// What both engines answer of rows behind a mark, and of others once they are back at it.
pub(crate) fn asked_again(alloc: Global, words: &[&str]) -> Result<String, CaseError> {
    let mut out = String::new(alloc);
    let turns = turns_of(alloc, words)?;
    let mut tableau = Tableau::new(alloc, TERMS, PIVOTS)?;
    let (first, second) = given(both_outcomes(alloc, &mut tableau, &turns, false)?)?;
    push_both(&mut out, "tableau ", &first, &second)?;
    let mut distances = DistanceTable::new(alloc, TERMS, ROWS)?;
    if let Some((first, second)) = both_outcomes(alloc, &mut distances, &turns, true)? {
        push_both(&mut out, ", distances ", &first, &second)?;
    }
    Ok(out)
}

/// How many terms the rows name: one more than the greatest number.
fn terms_of(rows: &[RowCase]) -> u64 {
    let mut most = 0;
    for row in rows {
        for (term, _) in &row.parts {
            most = most.max(term.saturating_add(1));
        }
    }
    most
}

/// The values that an engine finds.
fn push_values<E: LinearEngine>(
    out: &mut String,
    engine: &mut E,
    terms: u64,
) -> Result<(), CaseError>
    requires { E.last engine.old ≢ Stopped }
{
    if let Verdict::Conflict = engine.check()? {
        return Err(CaseError::NotACase);
    }
    for term in 0..terms {
        let value = engine.value(term);
        write!(out, "t{term} = ")?;
        push_fraction(out, &value)?;
        if term + 1 < terms {
            out.push_str(", ")?;
        }
    }
    Ok(())
}

/// The values of the terms: by the table of distances where the rows are difference rows, and else by the tableau.
pub(crate) fn valued(alloc: Global, words: &[&str]) -> Result<String, CaseError> {
    let mut out = String::new(alloc);
    let rows = rows_of(alloc, words)?;
    let terms = terms_of(rows.as_slice());
    let mut distances = DistanceTable::new(alloc, TERMS, ROWS)?;
    if take_rows(alloc, &mut distances, &rows, true)? {
        push_values(&mut out, &mut distances, terms)?;
    } else {
        let mut tableau = Tableau::new(alloc, TERMS, PIVOTS)?;
        take_rows(alloc, &mut tableau, &rows, false)?;
        push_values(&mut out, &mut tableau, terms)?;
    }
    Ok(out)
}

/// The multipliers that an engine finds, by the places of their rows.
fn push_multipliers<E: LinearEngine>(
    alloc: Global,
    out: &mut String,
    engine: &mut E,
    rows: usize,
) -> Result<(), CaseError>
    requires { E.last engine.old ≢ Stopped }
{
    if let Verdict::Holds = engine.check()? {
        return Err(CaseError::NotACase);
    }
    let mut multipliers: Vec<(u64, Frac)> = Vec::new(alloc);
    for at in 0..rows {
        if let Some(pair) = engine.multiplier(at) {
            multipliers.push(pair)?;
        }
    }
    let mut separator = "";
    for tag in 0..rows {
        for (row, multiplier) in &multipliers {
            if *row == tag as u64 {
                write!(out, "{separator}row {tag} by ")?;
                push_fraction(out, multiplier)?;
                separator = ", ";
            }
        }
    }
    Ok(())
}

/// The multipliers of the rows: by the table of distances where they are difference rows, and else by the tableau.
pub(crate) fn multiplied(alloc: Global, words: &[&str]) -> Result<String, CaseError> {
    let mut out = String::new(alloc);
    let rows = rows_of(alloc, words)?;
    let mut distances = DistanceTable::new(alloc, TERMS, ROWS)?;
    if take_rows(alloc, &mut distances, &rows, true)? {
        push_multipliers(alloc, &mut out, &mut distances, rows.len())?;
    } else {
        let mut tableau = Tableau::new(alloc, TERMS, PIVOTS)?;
        take_rows(alloc, &mut tableau, &rows, false)?;
        push_multipliers(alloc, &mut out, &mut tableau, rows.len())?;
    }
    Ok(out)
}

/// The next number of a sequence.
pub(crate) fn next_seed(seed: u64) -> u64 {
    seed.wrapping_mul(6364136223846793005)
        .wrapping_add(1442695040888963407)
}

/// A number from -4 to 4.
fn small(seed: u64) -> i128 {
    (seed % 9) as i128 - 4
}

/// A generated row over the terms from one number on and below another, of the first three, with sizes of at most 4.
pub(crate) fn generated_row(
    alloc: Global,
    bits: u64,
    from: u64,
    end: u64,
) -> Result<RowCase, CaseError> {
    let mut parts = Vec::new(alloc);
    let coefficients = [small(bits), small(bits / 9), small(bits / 81)];
    for (term, coefficient) in coefficients.iter().enumerate() {
        let term = term as u64;
        if from <= term && term < end && *coefficient != 0 {
            parts.push((term, *coefficient))?;
        }
    }
    Ok(RowCase {
        parts,
        constant: small(bits / 729),
        equal: bits / 6561 % 4 == 0,
    })
}

/// A generated system: three rows over three terms and two bounds. The seed goes on.
fn generated_rows(alloc: Global, seed: &mut u64) -> Result<Vec<RowCase>, CaseError> {
    let mut rows = Vec::new(alloc);
    for at in 0..5 {
        *seed = next_seed(*seed);
        let end = if at < 3 { 3 } else { 1 };
        rows.push(generated_row(alloc, *seed >> 20, 0, end)?)?;
    }
    Ok(rows)
}

/// Whether the tableau decides a generated system.
fn is_decided(alloc: Global, seed: &mut u64) -> Result<bool, CaseError> {
    let rows = generated_rows(alloc, seed)?;
    match by_tableau(alloc, 10000, rows.as_slice())? {
        Outcome::Holds | Outcome::Conflict => Ok(true),
        Outcome::Unfounded(_) | Outcome::Stops(_) => Ok(false),
    }
}

/// How many of so many generated systems the tableau decides.
fn decided(alloc: Global, first: u64, count: u32) -> Result<u32, CaseError> {
    let mut seed = first;
    let mut decided: u32 = 0;
    for _ in 0..count {
        if is_decided(alloc, &mut seed)? {
            decided = decided.saturating_add(1);
        }
    }
    Ok(decided)
}

/// How many of the generated systems are decided, or keep to the number of configurations of a chain at each limit.
pub(crate) fn generated(alloc: Global, words: &[&str]) -> Result<String, CaseError> {
    let seed = given(given(words.first())?.parse::<u64>().ok())?;
    let count = given(given(words.get(1))?.parse::<u32>().ok())?;
    match words.get(2) {
        None => {
            let decided = decided(alloc, seed, count)?;
            Ok(format!(in alloc; "{decided} decided")?)
        }
        Some(word) if *word == "limits" => {
            let bounded = bounded(alloc, seed, count)?;
            Ok(format!(in alloc; "{bounded} within their bounds")?)
        }
        Some(_) => Err(CaseError::NotACase),
    }
}
