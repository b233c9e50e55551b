// What `solve` answers, as text.
use crate::solutions::checking::is_checked;
use crate::solutions::error::CaseError;
use crate::solutions::reading::Problem;
use lq_cases_kit::{push_past, push_pred};
use lq_logic_points::Point;
use lq_logic_predicates::Stop;
use lq_refined_instances::Instances;
use lq_solve_strongest::weaken::{Chosen, SolveError, Solved, solve};
use std::alloc::{AllocError, Global};
use std::fmt::Write;

// The numbers of the chosen instances of an unknown that has so many.
fn row_text(
    alloc: Global,
    unknown: u64,
    count: usize,
    chosen: &Chosen,
) -> Result<String, AllocError> {
    let mut row = String::new(alloc);
    for at in 0..count {
        if chosen.has(unknown, at as u64) {
            write!(row, " {at}")?;
        }
    }
    if row.is_empty() {
        row.push_str(" none")?;
    }
    Ok(row)
}

fn count_of(instances: &Instances, unknown: usize) -> usize {
    match instances.get(unknown) {
        Some(list) => list.len(),
        None => 0,
    }
}

// Unknowns from the first on before the end, which have one row.
fn push_run(out: &mut String, first: usize, end: usize, row: &str) -> Result<(), AllocError> {
    if first >= end {
        return Ok(());
    }
    if !out.is_empty() {
        out.push_str("; ")?;
    }
    let last = end - 1;
    if first < last {
        write!(out, "{first} to {last}:{row}")
    } else {
        write!(out, "{first}:{row}")
    }
}

// The chosen instances of each unknown, unknowns of one row together.
fn chosen_text(
    alloc: Global,
    instances: &Instances,
    chosen: &Chosen,
) -> Result<String, AllocError> {
    let mut out = String::new(alloc);
    let mut first = 0;
    let mut before = String::new(alloc);
    let count = instances.len();
    for unknown in 0..count {
        let row = row_text(alloc, unknown as u64, count_of(instances, unknown), chosen)?;
        if row.as_str() != before.as_str() {
            push_run(&mut out, first, unknown, before.as_str())?;
            first = unknown;
            before = row;
        }
    }
    push_run(&mut out, first, count, before.as_str())?;
    if out.is_empty() {
        out.push_str("no unknowns")?;
    }
    Ok(out)
}

// The first demand that fails, whether it fails at the point, and the chosen instances.
fn failed(
    alloc: Global,
    problem: &Problem,
    chosen: &Chosen,
    at: u64,
    point: &Point,
) -> Result<String, CaseError> {
    let told = if is_checked(alloc, problem, at, chosen, point)? {
        "checked"
    } else {
        "but not at the point"
    };
    let chosen = chosen_text(alloc, &problem.instances, chosen)?;
    let chosen = chosen.as_str();
    Ok(format!(in alloc; "no solution: demand {at}, {told}; {chosen}")?)
}

// Where it stopped, and on what.
fn stopped(alloc: Global, at: u64, stop: &Stop) -> Result<String, AllocError> {
    let mut out = String::new(alloc);
    write!(out, "at {at}: ")?;
    match stop {
        Stop::Number(past) => push_past(&mut out, past)?,
        Stop::Gather(pred) => {
            out.push_str("past ")?;
            push_pred(&mut out, pred)?;
        }
        Stop::Pivots(count) => write!(out, "pivots {count}")?,
        Stop::Memory => out.push_str("no memory")?,
    }
    Ok(out)
}

/// What `solve` answers, where a check makes so many pivots.
pub(crate) fn solved_text(
    alloc: Global,
    problem: &Problem,
    limit: u64,
) -> Result<String, CaseError> {
    match solve(alloc, &problem.implications, &problem.instances, limit) {
        Ok(Solved::Strongest(chosen)) => Ok(chosen_text(alloc, &problem.instances, &chosen)?),
        Ok(Solved::NoSolution(chosen, at, point)) => failed(alloc, problem, &chosen, at, &point),
        Err(SolveError::At(at, stop)) => Ok(stopped(alloc, at, &stop)?),
        Err(SolveError::Memory) => Ok(String::from_str(alloc, "no memory")?),
    }
}
