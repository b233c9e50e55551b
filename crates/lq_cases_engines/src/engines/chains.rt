// Generated systems at each limit on pivots: `generated SEED COUNT limits`.

use crate::engines::error::CaseError;
use crate::engines::evidence::Outcome;
use crate::engines::rows::RowCase;
use crate::engines::systems::{by_tableau, generated_row, next_seed};
use lq_logic_rows::LinearStop;
use std::alloc::Global;

/// A generated system over at most three terms: at most three rows over all of them, and a bound of each. The seed goes on.
fn small_system(alloc: Global, seed: &mut u64) -> Result<Vec<RowCase>, CaseError> {
    let mut rows = Vec::new(alloc);
    *seed = next_seed(*seed);
    let terms = (*seed >> 20) % 3 + 1;
    let forms = (*seed >> 30) % 3 + 1;
    for _ in 0..forms {
        *seed = next_seed(*seed);
        rows.push(generated_row(alloc, *seed >> 20, 0, terms)?)?;
    }
    for term in 0..terms {
        *seed = next_seed(*seed);
        rows.push(generated_row(alloc, *seed >> 20, term, term + 1)?)?;
    }
    Ok(rows)
}

/// Whether the coefficients of one row are a multiple of those of another.
fn are_multiples(left: &[(u64, i128)], right: &[(u64, i128)]) -> bool {
    let (Some((_, first)), Some((_, second))) = (left.first(), right.first()) else {
        return false;
    };
    left.len() == right.len()
        && left.iter().zip(right).all(|((term, a), (other, b))| {
            *term == *other && a.wrapping_mul(*second) == b.wrapping_mul(*first)
        })
}

/// How many forms of two or more terms the rows have.
fn count_forms(rows: &[RowCase]) -> u64 {
    let mut count: u64 = 0;
    for (at, row) in rows.iter().enumerate() {
        let is_new = !rows.iter().take(at).any(|earlier| are_multiples(
            earlier.parts.as_slice(),
            row.parts.as_slice(),
        ));
        if row.parts.len() > 1 && is_new {
            count = count.wrapping_add(1);
        }
    }
    count
}

/// How many terms the rows name.
fn count_terms(rows: &[RowCase]) -> u64 {
    let mut count: u64 = 0;
    for term in 0..3 {
        if rows
            .iter()
            .any(|row| row.parts.iter().any(|(other, _)| *other == term))
        {
            count = count.wrapping_add(1);
        }
    }
    count
}

/// 3^n * C(m + n, n), for n terms and m forms.
fn most_configurations(terms: u64, forms: u64) -> u64 {
    let mut most: u64 = 1;
    for chosen in 1..terms.saturating_add(1) {
        most = most.saturating_mul(forms.saturating_add(chosen)) / chosen;
    }
    for _ in 0..terms {
        most = most.saturating_mul(3);
    }
    most
}

/// Whether the tableau, from the limit 0 to the bound, first spends each limit and then answers all the same, at the latest at the bound.
fn is_bounded(alloc: Global, rows: &[RowCase]) -> Result<bool, CaseError> {
    let most = most_configurations(count_terms(rows), count_forms(rows));
    let mut holds = None;
    for limit in 0..most.saturating_add(1) {
        let answer = match by_tableau(alloc, limit, rows)? {
            Outcome::Holds => Some(true),
            Outcome::Conflict => Some(false),
            Outcome::Stops(LinearStop::Pivots(spent)) if spent == limit => None,
            Outcome::Unfounded(_) | Outcome::Stops(_) => return Ok(false),
        };
        if holds.is_some() && answer != holds {
            return Ok(false);
        }
        holds = answer;
    }
    Ok(holds.is_some())
}

/// Of how many of so many generated systems no chain of pivots is longer than their terms and forms allow.
pub(crate) fn bounded(alloc: Global, first: u64, count: u32) -> Result<u32, CaseError> {
    let mut seed = first;
    let mut bounded: u32 = 0;
    for _ in 0..count {
        let rows = small_system(alloc, &mut seed)?;
        if is_bounded(alloc, rows.as_slice())? {
            bounded = bounded.saturating_add(1);
        }
    }
    Ok(bounded)
}
