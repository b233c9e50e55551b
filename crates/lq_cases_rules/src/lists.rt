// The implications of a program.
ghost use Rattle.lq_cases_rules.specs.Cases.{IsPosable};

use crate::calling::Labels;
use crate::case::Case;
use crate::posing::{Labelled, Typed, labelled_case, one_line, text_from};
use lq_generate_problem::pose;
use lq_logic_text::{push_pred, push_symbol, push_term};
use lq_refined_substitution::implications::{Implication, Implications, Reason};
use lq_refined_substitution::substitution::{Atom, Part, Subst};
use std::alloc::{AllocError, Global};

/// The word of a reason.
pub(crate) fn reason_text(reason: Reason) -> &'static str {
    match reason {
        Reason::Assertion => "assertion",
        Reason::Index => "index",
        Reason::Divisor => "divisor",
        Reason::Length => "length",
        Reason::Case => "case",
        Reason::Argument => "argument",
        Reason::Flow => "flow",
    }
}

fn push_atom(line: &mut Vec<u8>, labels: &Labels, atom: &Atom) -> Result<(), AllocError> {
    match atom {
        Atom::Term(term) => push_term(line, &labels.calling(), term),
        Atom::Pred(pred) => push_pred(line, &labels.calling(), pred),
    }
}

// What is put for symbols.
fn push_subst(line: &mut Vec<u8>, labels: &Labels, by: &Subst) -> Result<(), AllocError> {
    if by.len() == 0 {
        return Ok(());
    }
    line.extend_from_slice(b"[")?;
    for at in 0..by.len() {
        if at > 0 {
            line.extend_from_slice(b", ")?;
        }
        if let Some(swap) = by.get(at) {
            push_symbol(line, &labels.calling(), swap.symbol)?;
            line.extend_from_slice(b" := ")?;
            push_atom(line, labels, &swap.atom)?;
        }
    }
    line.extend_from_slice(b"]")
}

fn push_part(
    alloc: Global,
    line: &mut Vec<u8>,
    labels: &Labels,
    part: &Part,
) -> Result<(), AllocError> {
    match part {
        Part::Known(pred) => push_pred(line, &labels.calling(), pred),
        Part::Unknown(unknown, by) => {
            let text = format!(in alloc; "k{unknown}")?;
            line.extend_from_slice(text.as_bytes())?;
            push_subst(line, labels, by)
        }
    }
}

// The hypotheses of an implication, a line each.
fn add_hypotheses(
    alloc: Global,
    lines: &mut Vec<String>,
    labels: &Labels,
    list: &Implications,
    at: u32,
) -> Result<(), AllocError> {
    let mut hypotheses = list.hypotheses(at);
    let mut found = Vec::new(alloc);
    for _ in 0..u64::MAX {
        let Some(part) = hypotheses.take_last() else {
            break;
        };
        let mut line = Vec::new(alloc);
        line.extend_from_slice(b"  ")?;
        push_part(alloc, &mut line, labels, part)?;
        found.push(text_from(alloc, line)?)?;
    }
    for _ in 0..u64::MAX {
        let Some(line) = found.pop() else {
            break;
        };
        lines.push(line)?;
    }
    Ok(())
}

/// Whether an implication is a demand.
pub(crate) fn is_demand(implication: &Implication) -> bool {
    matches!(implication.goal, Part::Known(_))
}

fn add_implication(
    alloc: Global,
    lines: &mut Vec<String>,
    labels: &Labels,
    list: &Implications,
    implication: &Implication,
    at: u32,
    number: usize,
) -> Result<(), AllocError> {
    let kind = if is_demand(implication) {
        "demand"
    } else {
        "flow"
    };
    let (line, column) = (implication.place.line, implication.place.column);
    let reason = reason_text(implication.reason);
    lines.push(format!(in alloc; "{kind} {number} at {line}:{column} {reason}")?)?;
    add_hypotheses(alloc, lines, labels, list, at)?;
    let mut goal = Vec::new(alloc);
    goal.extend_from_slice(b"  |- ")?;
    push_part(alloc, &mut goal, labels, &implication.goal)?;
    lines.push(text_from(alloc, goal)?)?;
    Ok(())
}

fn add_list(
    alloc: Global,
    lines: &mut Vec<String>,
    labels: &Labels,
    list: &Implications,
) -> Result<(), AllocError> {
    let mut demands: usize = 0;
    let mut flows: usize = 0;
    for at in 0..list.len() {
        let Some(implication) = list.get(at) else {
            continue;
        };
        let number = if is_demand(implication) {
            demands = demands.saturating_add(1);
            demands
        } else {
            flows = flows.saturating_add(1);
            flows
        };
        add_implication(alloc, lines, labels, list, implication, at as u32, number)?;
    }
    Ok(())
}

fn lines_of(
    alloc: Global,
    labels: &Labels,
    list: &Implications,
) -> Result<Vec<String>, AllocError> {
    let mut lines = Vec::new(alloc);
    add_list(alloc, &mut lines, labels, list)?;
    if lines.is_empty() {
        return one_line(alloc, "none");
    }
    Ok(lines)
}

fn lines_for(alloc: Global, labels: &Labels, typed: &Typed) -> Result<Vec<String>, AllocError>
    requires { IsPosable typed.now }
{
    match pose(
        alloc,
        &typed.noted,
        &typed.normal,
        &typed.measures,
        &typed.qualifiers,
    ) {
        Ok(problem) => lines_of(alloc, labels, &problem.implications),
        Err(_) => one_line(alloc, "refused"),
    }
}

/// The implications of a case.
pub(crate) fn lists_of(alloc: Global, case: &Case) -> Result<Vec<String>, AllocError> {
    let Some(Labelled { typed, labels }) = labelled_case(alloc, case)? else {
        return one_line(alloc, "refused");
    };
    lines_for(alloc, &labels, &typed)
}
