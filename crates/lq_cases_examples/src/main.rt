//! Runs each command of the files that its words name, a line each, over the real folder, and prints what it writes and its status.
#![tactic(auto)]

use lq_base_io::{RealFolder, RealSink};
use lq_top_app::{Words, run_words};
use std::alloc::{AllocError, Global};
use std::{env, fs, io};

// The words of a line, between blanks.
fn words_of(alloc: Global, line: &str) -> Result<Words, AllocError> {
    let mut words = Words::new(alloc)?;
    for word in line.split_whitespace() {
        words.push(word)?;
    }
    Ok(words)
}

fn main(rt: HostRuntime) -> io::Result<()> {
    let alloc = rt.alloc();
    for name in env::args(&rt)?.skip(1) {
        let commands = fs::read_to_string(&rt, name.as_str())?;
        for line in commands.lines() {
            println!(rt; "{line}")?;
            let words = words_of(alloc, line)?;
            let mut folder = RealFolder::new(&rt);
            let mut out = RealSink::new(io::writer(&rt));
            let number = run_words(alloc, &words, &mut folder, &mut out).number();
            println!(rt; "status {number}")?;
        }
    }
    Ok(())
}
