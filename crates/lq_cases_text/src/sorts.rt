//! Prints what is wrong with each text of measures and of qualifiers of the files that the command line names. A line that begins with
//! `p: ` has the program whose datatypes the lines below it mean; one with `m: ` a text of measures, which those below it mean too;
//! one with `q: ` a text of qualifiers. Below the last two stands the first complaint. One with `b: ` has a text of qualifiers too, and
//! below it stands what the measures and the qualifiers are with their names bound, or what is told of the three texts.

mod bound;
mod told;

use bound::bound_told;
use std::alloc::Global;
use std::io;
use told::{measures_told, quals_told};

// What the lines so far say.
#[derive(Drop)]
struct Context {
    program: String,
    measures: String,
}

// A line, and below it what is wrong with its text.
fn answer_line(
    rt: &impl Print,
    alloc: Global,
    context: &mut Context,
    line: &str,
) -> io::Result<()> {
    println!(rt; "{line}")?;
    if let Some(text) = line.strip_prefix("p: ") {
        context.program = String::from_str(alloc, text)?;
        context.measures = String::new(alloc);
    } else if let Some(text) = line.strip_prefix("m: ") {
        context.measures = String::from_str(alloc, text)?;
        let told = measures_told(alloc, context.program.as_str(), text)?;
        println!(rt; "= {told}")?;
    } else if let Some(text) = line.strip_prefix("q: ") {
        let told = quals_told(
            alloc,
            context.program.as_str(),
            context.measures.as_str(),
            text,
        )?;
        println!(rt; "= {told}")?;
    } else if let Some(text) = line.strip_prefix("b: ") {
        let lines = bound_told(
            alloc,
            context.program.as_str(),
            context.measures.as_str(),
            text,
        )?;
        for told in &lines {
            println!(rt; "= {told}")?;
        }
    }
    Ok(())
}

/// Prints the lines of a table, each with its answer.
pub fn print_table(rt: &impl Print, alloc: Global, table: &str) -> io::Result<()> {
    let mut context = Context {
        program: String::new(alloc),
        measures: String::new(alloc),
    };
    for line in table.lines() {
        answer_line(rt, alloc, &mut context, line)?;
    }
    Ok(())
}
