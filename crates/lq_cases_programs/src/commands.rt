//! Answers the command lines in the files that the command line names: a line has the words of one, and below it stands what they are.

use lq_top_words::command::{Command, Judge, Mode, Words};
use std::alloc::{AllocError, Global};
use std::io;

// The words of a line, `""` for a word without a character. A line `(none)` has no words.
fn words_of(alloc: Global, line: &str) -> Result<Words, AllocError> {
    let mut words = Words::new(alloc)?;
    if line == "(none)" {
        return Ok(words);
    }
    for word in line.split(' ') {
        words.push(if word == "\"\"" { "" } else { word })?;
    }
    Ok(words)
}

fn mode_name(mode: Mode) -> &'static str {
    match mode {
        Mode::Check => "check",
        Mode::Types => "types",
        Mode::Explain => "explain",
    }
}

// Puts a file behind what is told.
fn push_file(told: &mut String, name: &str, file: Option<&str>) -> Result<(), AllocError> {
    if let Some(file) = file {
        told.push_str(" ")?;
        told.push_str(name)?;
        told.push_str(" ")?;
        told.push_str(if file.is_empty() { "\"\"" } else { file })?;
    }
    Ok(())
}

fn told_judge(alloc: Global, judge: &Judge<'_>) -> Result<String, AllocError> {
    let mut told = String::from_str(alloc, mode_name(judge.mode))?;
    push_file(&mut told, "program", Some(judge.program))?;
    push_file(&mut told, "measures", judge.measures)?;
    push_file(&mut told, "quals", judge.quals)?;
    let pivots = judge.pivots;
    format!(in alloc; "{told} pivots {pivots}")
}

// What the words of a line are.
fn told(alloc: Global, line: &str) -> Result<String, AllocError> {
    let words = words_of(alloc, line)?;
    match words.command(alloc)? {
        Some(Command::Judge(judge)) => told_judge(alloc, &judge),
        Some(Command::Sample { count, pivots }) => {
            format!(in alloc; "sample {count} pivots {pivots}")
        }
        None => String::from_str(alloc, "no command"),
    }
}

fn answer_line(rt: &impl Print, alloc: Global, line: &str) -> io::Result<()> {
    println!(rt; "{line}")?;
    if line.is_empty() || line.starts_with('#') {
        return Ok(());
    }
    let told = told(alloc, line)?;
    println!(rt; "= {told}")
}

/// Prints the lines of a table, each with its answer.
pub fn print_table(rt: &impl Print, alloc: Global, table: &str) -> io::Result<()> {
    for line in table.lines() {
        answer_line(rt, alloc, line)?;
    }
    Ok(())
}
