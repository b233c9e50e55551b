//! Prints the types of the definitions of each program of the files that the command line names,
//! or why it is refused. A line of a file that begins with `# ` names a program, and the lines up
//! to the next such line are its text.

mod told;
mod type_text;

use std::alloc::Global;
use std::io;
use told::told_of;

// What is told of a program, a line each. Of no text nothing is told.
fn answer(rt: &impl Print, alloc: Global, program: &str) -> io::Result<()> {
    let lines = told_of(alloc, program.as_bytes())?;
    for line in &lines {
        println!(rt; "= {line}")?;
    }
    Ok(())
}

/// Prints the lines of a table, and below each program what is told of it.
pub fn print_table(rt: &impl Print, alloc: Global, table: &str) -> io::Result<()> {
    let mut program = String::new(alloc);
    for line in table.lines() {
        if line.starts_with("# ") {
            answer(rt, alloc, program.as_str())?;
            program = String::new(alloc);
        } else {
            program.push_str(line)?;
            program.push('\n')?;
        }
        println!(rt; "{line}")?;
    }
    answer(rt, alloc, program.as_str())
}
