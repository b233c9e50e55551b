// Pairs of applications that stand inside the arguments of others.
use crate::search::pair::Pair;
use lq_logic_predicates::Nnf;
use std::alloc::Global;

/// How many pairs are looked at for the sake of one.
const INNER: usize = 64;

/// The parts of the row at a place in the first way of a pair: that the first arguments are equal, the second ones, and the results.
fn row_at(pair: &Pair, place: usize) -> &[(u64, i128)] {
    match pair.ways.get(0) {
        Some(Nnf::All(rows)) => match rows.get(place) {
            Some(Nnf::Row(row)) => row.parts(),
            _ => &[],
        },
        _ => &[],
    }
}

/// The numbers of the terms that the two applications are.
fn results(pair: &Pair) -> (u64, u64) {
    let parts = row_at(pair, 2);
    if parts.len() == 2 {
        return (parts[0].0, parts[1].0);
    }
    (0, 0)
}

/// Whether a pair of terms comes before another one: by the second terms, and by the first ones where these are the same.
fn is_earlier(one: (u64, u64), other: (u64, u64)) -> bool {
    if one.1 == other.1 {
        return one.0 < other.0;
    }
    one.1 < other.1
}

/// The place of the pair of two terms, where pairs come in the order of their terms.
fn pair_of_terms(pairs: &[Pair], terms: (u64, u64)) -> Option<usize> {
    let mut low: usize = 0;
    let mut high = pairs.len();
    for _ in 0..64 {
        let Some(middle) = middle_of(low, high) else {
            return None;
        };
        let Some(pair) = pairs.get(middle) else {
            return None;
        };
        let found = results(pair);
        if found == terms {
            return Some(middle);
        }
        if is_earlier(found, terms) {
            low = middle.saturating_add(1);
        } else {
            high = middle;
        }
    }
    None
}

/// The middle of a range, where it isn't empty.
fn middle_of(low: usize, high: usize) -> Option<usize> {
    if low >= high {
        return None;
    }
    Some(low + (high - low) / 2)
}

/// Adds a pair to be looked at, where it wasn't looked at and there is room.
fn look(looked: &mut Vec<bool>, list: &mut Vec<usize>, at: usize) {
    if at < looked.len() && !looked[at] && list.len() < INNER {
        if let Ok(()) = list.push(at) {
            looked[at] = true;
        }
    }
}

/// Adds the pairs of two terms of a row.
fn look_inside(
    pairs: &[Pair],
    parts: &[(u64, i128)],
    looked: &mut Vec<bool>,
    list: &mut Vec<usize>,
) {
    for later in 0..parts.len() {
        for earlier in 0..later {
            if let Some(at) = pair_of_terms(pairs, (parts[earlier].0, parts[later].0)) {
                look(looked, list, at);
            }
        }
    }
}

/// A pair and behind it those inside its arguments, each one behind those that it is inside of, without those that were looked at.
pub(crate) fn inside(
    alloc: Global,
    pairs: &[Pair],
    at: usize,
    looked: &mut Vec<bool>,
) -> Vec<usize> {
    let mut list = Vec::new(alloc);
    look(looked, &mut list, at);
    for k in 0..INNER {
        if k < list.len() && list[k] < pairs.len() {
            let pair = &pairs[list[k]];
            look_inside(pairs, row_at(pair, 0), looked, &mut list);
            look_inside(pairs, row_at(pair, 1), looked, &mut list);
        }
    }
    list
}

/// That none of so many pairs was looked at.
pub(crate) fn none_looked(alloc: Global, count: usize) -> Vec<bool> {
    let mut looked = Vec::new(alloc);
    for _ in 0..count {
        let Ok(()) = looked.push(false) else {
            return looked;
        };
    }
    looked
}
