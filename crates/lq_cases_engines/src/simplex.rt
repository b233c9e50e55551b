//! Sequences of rows that come and go, each answer of the tableau checked by its own evidence.

mod evidence;
mod rows;
mod sequence;

use sequence::sequence;
use std::alloc::Global;
use std::io;

/// Prints how many answers there were of each kind.
pub fn print_counts(rt: &impl Print, alloc: Global) -> io::Result<()> {
    let mut seed: u64 = 1;
    let (mut holds, mut conflicts, mut wrong, mut stops) = (0u64, 0u64, 0u64, 0u64);
    for _ in 0..1000 {
        match sequence(alloc, &mut seed) {
            Ok(counts) => {
                holds = holds.wrapping_add(counts.holds);
                conflicts = conflicts.wrapping_add(counts.conflicts);
                wrong = wrong.wrapping_add(counts.wrong);
            }
            Err(_) => stops = stops.wrapping_add(1),
        }
    }
    println!(rt; "{holds} hold, {conflicts} conflict, {wrong} wrong, {stops} stop")
}
