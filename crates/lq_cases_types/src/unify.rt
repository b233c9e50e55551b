//! Answers a table of equations between types, in the notation of README.md.

mod printing;
mod system;

use lq_types_unify::{first_failing, solve};
use printing::type_texts;
use std::alloc::Global;
use std::io;
use system::system_of;

// The types of all nodes, or how many equations have no solution.
fn answer(alloc: Global, line: &str) -> io::Result<String> {
    let Some(system) = system_of(alloc, line)? else {
        return Ok(String::from_str(alloc, "is no system")?);
    };
    if let Some(solution) = solve(alloc, &system.arena, &system.equations)? {
        return Ok(type_texts(alloc, &system.arena, &solution)?);
    }
    match first_failing(alloc, &system.arena, &system.equations)? {
        Some(count) => Ok(format!(in alloc; "the first {count} have no solution")?),
        None => Ok(String::from_str(alloc, "all have a solution")?),
    }
}

/// Prints the lines of a table, but for its comments, each with its answer below it.
pub fn print_table(rt: &impl Print, alloc: Global, table: &str) -> io::Result<()> {
    for line in table.lines() {
        if line.is_empty() || line.starts_with('#') {
            continue;
        }
        let answered = answer(alloc, line)?;
        println!(rt; "{line}")?;
        println!(rt; "{answered}")?;
    }
    Ok(())
}
