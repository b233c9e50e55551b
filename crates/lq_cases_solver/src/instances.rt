//! Prints the instances of qualifiers for each line of the files that the command line names. A line that begins with `p: ` has the
//! program whose datatypes the lines below it mean; one with `m: ` a text of measures, and one with `q: ` a text of qualifiers, which
//! those below them mean too. One with `i: ` has scopes with the shapes of unknowns in them, and below it stand the instances of each. One
//! with `e: ` has a constructor with its fields and the value that it makes, and below it stand the equations of measures.

mod answers;
mod equations;
mod printing;
mod scopes;
mod texts;

use answers::told;
use equations::equations_told;
use std::alloc::Global;
use std::io;

// What the lines so far say.
#[derive(Drop)]
struct Context {
    program: String,
    measures: String,
    qualifiers: String,
}

// A line for each answer.
fn print_answers(rt: &impl Print, lines: &[String]) -> io::Result<()> {
    for told in lines {
        println!(rt; "= {told}")?;
    }
    Ok(())
}

// A line, and below it the instances that it asks for.
fn answer_line(
    rt: &impl Print,
    alloc: Global,
    context: &mut Context,
    line: &str,
) -> io::Result<()> {
    println!(rt; "{line}")?;
    if let Some(text) = line.strip_prefix("p: ") {
        context.program = String::from_str(alloc, text)?;
    } else if let Some(text) = line.strip_prefix("m: ") {
        context.measures = String::from_str(alloc, text)?;
    } else if let Some(text) = line.strip_prefix("q: ") {
        context.qualifiers = String::from_str(alloc, text)?;
    } else if let Some(text) = line.strip_prefix("i: ") {
        let lines = told(
            alloc,
            context.program.as_str(),
            context.measures.as_str(),
            context.qualifiers.as_str(),
            text,
        )?;
        print_answers(rt, &lines)?;
    } else if let Some(text) = line.strip_prefix("e: ") {
        let program = context.program.as_str();
        let lines = equations_told(alloc, program, context.measures.as_str(), text)?;
        print_answers(rt, &lines)?;
    }
    Ok(())
}

/// Prints the lines of a table, each with its answer.
pub fn print_table(rt: &impl Print, alloc: Global, table: &str) -> io::Result<()> {
    let mut context = Context {
        program: String::from_str(alloc, "let x = 1")?,
        measures: String::new(alloc),
        qualifiers: String::new(alloc),
    };
    for line in table.lines() {
        answer_line(rt, alloc, &mut context, line)?;
    }
    Ok(())
}
