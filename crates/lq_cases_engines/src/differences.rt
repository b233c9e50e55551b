//! Sequences of rows that come and go, each answer compared with that of a table made anew.

mod rows;
mod sequence;

use sequence::sequence;
use std::alloc::Global;
use std::io;

/// Prints how many answers there were of each kind.
pub fn print_counts(rt: &impl Print, alloc: Global) -> io::Result<()> {
    let mut seed: u64 = 1;
    let (mut holds, mut conflicts, mut differ, mut stops) = (0u64, 0u64, 0u64, 0u64);
    for _ in 0..1000 {
        match sequence(alloc, &mut seed) {
            Ok(counts) => {
                holds = holds.wrapping_add(counts.holds);
                conflicts = conflicts.wrapping_add(counts.conflicts);
                differ = differ.wrapping_add(counts.differ);
            }
            Err(_) => stops = stops.wrapping_add(1),
        }
    }
    println!(rt; "{holds} hold, {conflicts} conflict, {differ} differ, {stops} stop")
}
