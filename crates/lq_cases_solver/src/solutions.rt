//! Answers cases of lists of implications: reads the files that its arguments name, and prints each case with its answer. The README
//! beside `src/` says how a case is written.

mod answer;
mod case;
mod checking;
mod error;
mod reading;
mod unknowns;

use case::case_answer;
use std::alloc::Global;
use std::io;

// A line as it stands where it is none of a case, and else with its answer behind it.
fn print_line(rt: &impl Print, alloc: Global, line: &str) -> io::Result<()> {
    if line.is_empty() || line.starts_with('#') {
        return println!(rt; "{line}");
    }
    let found = case_answer(alloc, line)?;
    println!(rt; "{line} -> {found}")
}

/// Prints the lines of a table, each with its answer.
pub fn print_table(rt: &impl Print, alloc: Global, table: &str) -> io::Result<()> {
    for line in table.lines() {
        print_line(rt, alloc, line)?;
    }
    Ok(())
}
