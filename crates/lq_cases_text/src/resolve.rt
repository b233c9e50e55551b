//! Prints the definitions of each program of the files that the command line names, with their names bound: a line of a file is a
//! program, and below it stand its nodes, binders and source names.

mod bound;
mod heads;

use bound::bound_of;
use std::alloc::Global;
use std::io;

// A program, and below it what it is with its names bound.
fn answer_line(rt: &impl Print, alloc: Global, line: &str) -> io::Result<()> {
    println!(rt; "{line}")?;
    if line.is_empty() || line.starts_with('#') {
        return Ok(());
    }
    let bound = bound_of(alloc, line.as_bytes())?;
    println!(rt; "={bound}")
}

/// Prints the lines of a table, each with its answer.
pub fn print_table(rt: &impl Print, alloc: Global, table: &str) -> io::Result<()> {
    for line in table.lines() {
        answer_line(rt, alloc, line)?;
    }
    Ok(())
}
