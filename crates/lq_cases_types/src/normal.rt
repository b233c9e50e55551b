//! Prints the normal form of each program of the files that the command line names: a line of a file is a program, and below it stand
//! its definitions in normal form. Of a program behind `@` the places of nodes are printed too.

mod names;
mod printing;
mod told;

use std::alloc::Global;
use std::io;
use told::told_of;

// A program, and below it its normal form.
fn answer_line(rt: &impl Print, alloc: Global, line: &str) -> io::Result<()> {
    println!(rt; "{line}")?;
    if line.is_empty() || line.starts_with('#') {
        return Ok(());
    }
    let places = line.starts_with('@');
    let lines = told_of(alloc, line.as_bytes(), places)?;
    for line in &lines {
        println!(rt; "= {line}")?;
    }
    Ok(())
}

/// Prints the lines of a table, each with its answer.
pub fn print_table(rt: &impl Print, alloc: Global, table: &str) -> io::Result<()> {
    for line in table.lines() {
        answer_line(rt, alloc, line)?;
    }
    Ok(())
}
