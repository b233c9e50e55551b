// The types of a program under the strongest solution.
ghost use Rattle.lq_cases_rules.specs.Cases.{IsPosable};

use crate::calling::Labels;
use crate::case::Case;
use crate::lists::{is_demand, reason_text};
use crate::posing::{Labelled, Typed, labelled_case, one_line, text_from, tree_of};
use crate::texts::text_of;
use lq_base_names::{Binder, Name, NameTable};
use lq_generate_problem::{Problem, ProblemError, pose};
use lq_logic_predicates::Preds;
use lq_refined_instances::Instances;
use lq_refined_substitution::implications::Implications;
use lq_refined_templates::programs::Item;
use lq_solve_strongest::weaken::{Chosen, SolveError, Solved, solve};
use lq_top_answers::assignment::Assignment;
use lq_top_answers::type_text::push_line;
use std::alloc::{AllocError, Global};

// As many pivots as a check may make.
const PIVOTS: u64 = 1 << 32;

// How many unknowns, instances, flows and demands there are.
fn counts_line(alloc: Global, problem: &Problem) -> Result<String, AllocError> {
    let unknowns = problem.instances.len();
    let mut instances: usize = 0;
    for at in 0..unknowns {
        if let Some(list) = problem.instances.get(at) {
            instances = instances.saturating_add(list.len());
        }
    }
    let mut demands: usize = 0;
    let mut flows: usize = 0;
    for at in 0..problem.implications.len() {
        if let Some(implication) = problem.implications.get(at) {
            if is_demand(implication) {
                demands = demands.saturating_add(1);
            } else {
                flows = flows.saturating_add(1);
            }
        }
    }
    format!(in alloc;
        "unknowns {unknowns}, instances {instances}, flows {flows}, demands {demands}"
    )
}

// The chosen instances of each unknown.
fn assignment_of(
    alloc: Global,
    instances: &Instances,
    chosen: &Chosen,
) -> Result<Assignment, AllocError> {
    let mut assignment = Assignment::new(alloc);
    for unknown in 0..instances.len() {
        let mut preds = Preds::new(alloc)?;
        if let Some(list) = instances.get(unknown) {
            for at in 0..list.len() {
                if chosen.has(unknown as u64, at as u64) {
                    if let Some(pred) = list.get(at) {
                        preds.push(pred.copy(alloc)?)?;
                    }
                }
            }
        }
        assignment.push(preds)?;
    }
    Ok(assignment)
}

// The name and the point of a definition that has them.
fn defined_by(item: &Item) -> Option<(Binder, usize)> {
    match item {
        Item::Define(name, _, point, _) => Some((*name, *point)),
        Item::DefineFunction(name, point, _, _) => Some((*name, *point)),
        Item::RunUnit(_) | Item::RunAny(_) => None,
    }
}

fn name_at<'a>(names: &'a NameTable, sources: &[Option<Name>], binder: Binder) -> &'a str {
    match sources.get(binder.0 as usize) {
        Some(Some(name)) => text_of(names, *name),
        _ => "?",
    }
}

// The types of the definitions under chosen instances.
fn add_types(
    alloc: Global,
    lines: &mut Vec<String>,
    labels: &Labels,
    problem: &mut Problem,
    chosen: &Chosen,
) -> Result<(), AllocError> {
    let assignment = assignment_of(alloc, &problem.instances, chosen)?;
    for item in &problem.program {
        let Some((name, point)) = defined_by(item) else {
            continue;
        };
        let Some(rows) = problem.templates.get(point) else {
            continue;
        };
        let Some(row) = rows.first() else {
            continue;
        };
        let tree = tree_of(
            alloc,
            &mut problem.types,
            &problem.scopes,
            &assignment,
            *row,
        )?;
        if let Some(tree) = tree {
            let text = name_at(&labels.names, &labels.sources, name);
            let mut line = Vec::new(alloc);
            push_line(alloc, &mut line, &labels.writing(), text.as_bytes(), &tree)?;
            // A line of the report ends there.
            let _end = line.pop();
            lines.push(text_from(alloc, line)?)?;
        }
    }
    Ok(())
}

// The demand of an implication, with its number among demands.
fn demand_line(alloc: Global, list: &Implications, at: u64) -> Result<String, AllocError> {
    let mut number: usize = 0;
    for before in 0..list.len() {
        let Some(implication) = list.get(before) else {
            continue;
        };
        if is_demand(implication) {
            number = number.saturating_add(1);
        }
        if before as u64 == at {
            let (line, column) = (implication.place.line, implication.place.column);
            let reason = reason_text(implication.reason);
            return format!(in alloc; "demand {number} at {line}:{column}: {reason}");
        }
    }
    String::from_str(alloc, "?")
}

fn add_solution(
    alloc: Global,
    lines: &mut Vec<String>,
    labels: &Labels,
    problem: &mut Problem,
) -> Result<(), AllocError> {
    match solve(alloc, &problem.implications, &problem.instances, PIVOTS) {
        Ok(Solved::Strongest(chosen)) => {
            lines.push(String::from_str(alloc, "accepted")?)?;
            add_types(alloc, lines, labels, problem, &chosen)
        }
        Ok(Solved::NoSolution(_chosen, at, _point)) => {
            lines.push(String::from_str(alloc, "rejected")?)?;
            lines.push(demand_line(alloc, &problem.implications, at)?)?;
            Ok(())
        }
        Err(SolveError::At(at, _stop)) => {
            lines.push(String::from_str(alloc, "undecided")?)?;
            lines.push(demand_line(alloc, &problem.implications, at)?)?;
            Ok(())
        }
        Err(SolveError::Memory) => Err(AllocError),
    }
}

fn lines_of(
    alloc: Global,
    labels: &Labels,
    problem: &mut Problem,
) -> Result<Vec<String>, AllocError> {
    let counts = counts_line(alloc, problem)?;
    let mut lines = one_line(alloc, counts.as_str())?;
    add_solution(alloc, &mut lines, labels, problem)?;
    Ok(lines)
}

fn refusal(alloc: Global, error: ProblemError) -> Result<Vec<String>, AllocError> {
    match error {
        ProblemError::InstancesPast(count) => {
            let line = format!(in alloc; "refused 15 instances: count {count}")?;
            one_line(alloc, line.as_str())
        }
        ProblemError::ImplicationsPast(count) => {
            let line = format!(in alloc; "refused 16 implications: count {count}")?;
            one_line(alloc, line.as_str())
        }
        ProblemError::Memory => Err(AllocError),
    }
}

fn lines_for(alloc: Global, labels: &Labels, typed: &Typed) -> Result<Vec<String>, AllocError>
    requires { IsPosable typed.now }
{
    match pose(
        alloc,
        &typed.noted,
        &typed.normal,
        &typed.measures,
        &typed.qualifiers,
    ) {
        Ok(mut problem) => lines_of(alloc, labels, &mut problem),
        Err(error) => refusal(alloc, error),
    }
}

/// How many unknowns, instances, flows and demands a case has, and the types of its definitions, or the first demand that fails.
pub(crate) fn solution_of(alloc: Global, case: &Case) -> Result<Vec<String>, AllocError> {
    let Some(Labelled { typed, labels }) = labelled_case(alloc, case)? else {
        return one_line(alloc, "refused");
    };
    lines_for(alloc, &labels, &typed)
}
