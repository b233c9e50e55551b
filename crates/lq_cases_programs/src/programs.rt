//! Answers tables of whole runs, in the notation of README.md.

mod answer;
mod line;
mod notation;
mod refusals;
mod setting;

use answer::answer;
use setting::Setting;
use std::alloc::Global;
use std::io;

/// Prints the lines of a table, but for its comments, each with its answer below it.
pub fn print_table(rt: &impl Print, alloc: Global, table: &str) -> io::Result<()> {
    let mut setting = Setting::new(alloc);
    for line in table.lines() {
        if line.is_empty() || line.starts_with('#') {
            continue;
        }
        println!(rt; "{line}")?;
        if let Some(answered) = answer(alloc, &mut setting, line)? {
            println!(rt; "{answered}")?;
        }
    }
    Ok(())
}
