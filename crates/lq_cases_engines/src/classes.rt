//! Answers a table of cases of classes, in the notation of README.md.

mod commands;

use commands::answer;
use std::alloc::Global;
use std::io;

/// Prints the lines of a table, but for its comments, each with its answer below it.
pub fn print_table(rt: &impl Print, alloc: Global, table: &str) -> io::Result<()> {
    for line in table.lines() {
        if line.is_empty() || line.starts_with('#') {
            continue;
        }
        let answered = answer(alloc, line)?;
        println!(rt; "{line}")?;
        println!(rt; "{answered}")?;
    }
    Ok(())
}
