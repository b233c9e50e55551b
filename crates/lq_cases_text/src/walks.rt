//! Prints what a walk meets in each program of the files that the command line names: a line of a file is a program, and below it stand
//! its visits.

mod visits;

use std::alloc::Global;
use std::io;
use visits::visits_of;

// A program, and below it what a walk over it meets.
fn answer_line(rt: &impl Print, alloc: Global, line: &str) -> io::Result<()> {
    println!(rt; "{line}")?;
    if line.is_empty() || line.starts_with('#') {
        return Ok(());
    }
    let visits = visits_of(alloc, line.as_bytes())?;
    println!(rt; "={visits}")
}

/// Prints the lines of a table, each with its answer.
pub fn print_table(rt: &impl Print, alloc: Global, table: &str) -> io::Result<()> {
    for line in table.lines() {
        answer_line(rt, alloc, line)?;
    }
    Ok(())
}
