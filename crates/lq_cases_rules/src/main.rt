//! Prints what is made of the programs of tables: `points FILE` the templates of their points and the scopes of their unknowns, `lists
//! FILE` their implications, and `solutions FILE` their types under the strongest solution, or the first demand that fails. A line of a
//! file that begins with `# ` names a case; below it stand the lines of its program, those of its qualifiers behind `? `, and those of
//! its measures behind `! `.
#![tactic(auto)]

mod calling;
mod case;
mod lists;
mod points;
mod posing;
mod solutions;
mod texts;

use case::Case;
use lists::lists_of;
use points::points_of;
use solutions::solution_of;
use std::alloc::{AllocError, Global};
use std::{env, fs, io};

// The answer to a case.
fn answer(alloc: Global, mode: &str, case: &Case) -> Result<Vec<String>, AllocError> {
    match mode {
        "points" => points_of(alloc, case),
        "lists" => lists_of(alloc, case),
        _ => solution_of(alloc, case),
    }
}

fn print_answer(rt: &impl Print, alloc: Global, mode: &str, case: &Option<Case>) -> io::Result<()> {
    let Some(case) = case else {
        return Ok(());
    };
    let lines = answer(alloc, mode, case)?;
    for line in &lines {
        println!(rt; "= {line}")?;
    }
    Ok(())
}

fn print_table(rt: &impl Print, alloc: Global, mode: &str, table: &str) -> io::Result<()> {
    let mut case = None;
    for line in table.lines() {
        if line.starts_with("# ") {
            print_answer(rt, alloc, mode, &case)?;
            case = Some(Case::new(alloc));
        } else if let Some(case) = &mut case {
            case.add(line)?;
        }
        println!(rt; "{line}")?;
    }
    print_answer(rt, alloc, mode, &case)
}

fn main(rt: HostRuntime) -> io::Result<()> {
    let mut mode = String::new(rt.alloc());
    for word in env::args(&rt)?.skip(1) {
        match word.as_str() {
            "points" | "lists" | "solutions" => mode = word,
            name => {
                let table = fs::read_to_string(&rt, name)?;
                print_table(&rt, rt.alloc(), mode.as_str(), table.as_str())?;
            }
        }
    }
    Ok(())
}
