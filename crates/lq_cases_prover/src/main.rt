//! Answers tables of cases of the prover. A word of the command line is a kind of tables or, behind it, a file with a
//! table of that kind: `prover` for implications and `decide` for literals.
#![tactic(auto)]

mod decide;
mod prover;

use std::alloc::Global;
use std::{env, fs, io};

// The lines of a table of this kind, with their answers.
fn print_table(rt: &impl Print, alloc: Global, kind: &str, table: &str) -> io::Result<()> {
    match kind {
        "prover" => prover::print_table(rt, alloc, table),
        _ => decide::print_table(rt, alloc, table),
    }
}

fn main(rt: HostRuntime) -> io::Result<()> {
    let mut kind = String::new(rt.alloc());
    for word in env::args(&rt)?.skip(1) {
        match word.as_str() {
            "prover" | "decide" => kind = word,
            name => {
                let table = fs::read_to_string(&rt, name)?;
                print_table(&rt, rt.alloc(), kind.as_str(), table.as_str())?;
            }
        }
    }
    Ok(())
}
