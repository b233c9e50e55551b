//! Answers tables of cases of engines. A word of the command line is a kind of tables or, behind it, a file with a
//! table of that kind: `engines` and `classes`. `differences` and `simplex` print
//! counts of made sequences, and take no file.
#![tactic(auto)]

mod classes;
mod differences;
mod engines;
mod simplex;

use std::alloc::Global;
use std::{env, fs, io};

// The lines of a table of this kind, with their answers.
fn print_table(rt: &impl Print, alloc: Global, kind: &str, table: &str) -> io::Result<()> {
    match kind {
        "engines" => engines::print_table(rt, alloc, table),
        _ => classes::print_table(rt, alloc, table),
    }
}

fn main(rt: HostRuntime) -> io::Result<()> {
    let mut kind = String::new(rt.alloc());
    for word in env::args(&rt)?.skip(1) {
        match word.as_str() {
            "differences" => differences::print_counts(&rt, rt.alloc())?,
            "simplex" => simplex::print_counts(&rt, rt.alloc())?,
            "engines" | "classes" => kind = word,
            name => {
                let table = fs::read_to_string(&rt, name)?;
                print_table(&rt, rt.alloc(), kind.as_str(), table.as_str())?;
            }
        }
    }
    Ok(())
}
