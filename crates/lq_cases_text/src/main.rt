//! Answers tables of cases of texts and names. A word of the command line is a kind of tables or, behind it, a file with a
//! table of that kind: `front` for tokens and trees, `walks`, `scope`, `resolve` and `sorts`.
#![tactic(auto)]

mod front;
mod resolve;
mod scope;
mod sorts;
mod walks;

use std::alloc::Global;
use std::{env, fs, io};

// The lines of a table of this kind, with their answers.
fn print_table(rt: &impl Print, alloc: Global, kind: &str, table: &str) -> io::Result<()> {
    match kind {
        "front" => front::print_table(rt, alloc, table),
        "walks" => walks::print_table(rt, alloc, table),
        "scope" => scope::print_table(rt, alloc, table),
        "resolve" => resolve::print_table(rt, alloc, table),
        _ => sorts::print_table(rt, alloc, table),
    }
}

fn main(rt: HostRuntime) -> io::Result<()> {
    let mut kind = String::new(rt.alloc());
    for word in env::args(&rt)?.skip(1) {
        match word.as_str() {
            "front" | "walks" | "scope" | "resolve" | "sorts" => kind = word,
            name => {
                let table = fs::read_to_string(&rt, name)?;
                print_table(&rt, rt.alloc(), kind.as_str(), table.as_str())?;
            }
        }
    }
    Ok(())
}
