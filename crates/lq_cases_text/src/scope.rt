//! Prints what is wrong with the names of each program of the files that the command line names: a line of a file is a program, and below
//! it stands the first complaint.

mod told;

use std::alloc::Global;
use std::io;
use told::told_of;

// A program, and below it what is wrong with its names.
fn answer_line(rt: &impl Print, alloc: Global, line: &str) -> io::Result<()> {
    println!(rt; "{line}")?;
    if line.is_empty() || line.starts_with('#') {
        return Ok(());
    }
    let told = told_of(alloc, line.as_bytes())?;
    println!(rt; "= {told}")
}

/// Prints the lines of a table, each with its answer.
pub fn print_table(rt: &impl Print, alloc: Global, table: &str) -> io::Result<()> {
    for line in table.lines() {
        answer_line(rt, alloc, line)?;
    }
    Ok(())
}
