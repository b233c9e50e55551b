//! Answers the cases in the files that the command line names: a text with its tokens, its stop or its tree, a line each.

mod case;
mod kinds;
mod names;
mod notation;
mod printer;
mod readings;
mod tokens;
mod trees;

use case::answer;
use std::alloc::Global;
use std::io;

// A line of a file: below a case stands its answer.
fn answer_line(rt: &impl Print, alloc: Global, line: &str) -> io::Result<()> {
    println!(rt; "{line}")?;
    if line.is_empty() || line.starts_with('#') {
        return Ok(());
    }
    let answer = answer(alloc, line)?;
    if answer.is_empty() {
        println!(rt; "= (none)")
    } else {
        println!(rt; "= {answer}")
    }
}

/// Prints the lines of a table, each with its answer.
pub fn print_table(rt: &impl Print, alloc: Global, table: &str) -> io::Result<()> {
    for line in table.lines() {
        answer_line(rt, alloc, line)?;
    }
    Ok(())
}
