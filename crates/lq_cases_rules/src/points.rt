// The templates of points, and the scopes of unknowns.
ghost use Rattle.lq_cases_rules.specs.Cases.{IsPosable};

use crate::calling::{Labels, name_of};
use crate::case::Case;
use crate::posing::{Labelled, Typed, labelled_case, one_line, text_from, tree_of};
use crate::texts::text_of;
use lq_base_names::{Binder, NameTable};
use lq_generate_fresh::scopes::unknown_scopes;
use lq_generate_problem::{Made, templates_of};
use lq_logic_predicates::{Pred, Preds, Symbol};
use lq_logic_text::push_symbol;
use lq_refined_copies::SharedUnknowns;
use lq_refined_instances::{Unknowns, Visible};
use lq_refined_substitution::substitution::Scopes;
use lq_refined_subtyping::table::RefinedTypes;
use lq_refined_templates::programs::Point;
use lq_text_qualifiers::sorting::Shape;
use lq_top_answers::assignment::Assignment;
use lq_top_answers::type_text::push_type;
use std::alloc::{AllocError, Global};

// A predicate for each unknown that is called `k` and its number, behind the binders.
fn named_unknowns(
    alloc: Global,
    labels: &mut Labels,
    count: usize,
) -> Result<Assignment, AllocError> {
    let mut assignment = Assignment::new(alloc);
    for at in 0..count {
        let text = format!(in alloc; "k{at}")?;
        let label = name_of(&mut labels.names, text.as_str())?;
        let mut preds = Preds::new(alloc)?;
        if let Ok(number) = u32::try_from(labels.sources.len()) {
            preds.push(Pred::Flag(Symbol::Bound(Binder(number))))?;
        }
        labels.sources.push(label)?;
        assignment.push(preds)?;
    }
    Ok(assignment)
}

// The types of some numbers of a table, one behind the other.
fn push_types(
    alloc: Global,
    line: &mut Vec<u8>,
    types: &mut RefinedTypes,
    scopes: &Scopes,
    assignment: &Assignment,
    labels: &Labels,
    rows: &[usize],
) -> Result<(), AllocError> {
    let mut first = true;
    for row in rows {
        let Some(tree) = tree_of(alloc, types, scopes, assignment, *row)? else {
            continue;
        };
        if !first {
            line.extend_from_slice(b", ")?;
        }
        first = false;
        push_type(alloc, line, &labels.writing(), &tree)?;
    }
    Ok(())
}

fn is_idle(point: &Point) -> bool {
    matches!(point, Point::Idle(_))
}

fn shape_text(names: &NameTable, shape: Shape) -> &str {
    match shape {
        Shape::Int => "int",
        Shape::Bool => "bool",
        Shape::Array => "array",
        Shape::Data(name) => text_of(names, name),
    }
}

// An unknown with its shape and the symbols of its scope.
fn unknown_line(
    alloc: Global,
    labels: &Labels,
    at: usize,
    shape: Shape,
    visible: &[Visible],
) -> Result<String, AllocError> {
    let shape = shape_text(&labels.names, shape);
    let head = format!(in alloc; "k{at} {shape} :")?;
    let mut line = Vec::new(alloc);
    line.extend_from_slice(head.as_bytes())?;
    for one in visible {
        line.extend_from_slice(b" ")?;
        push_symbol(&mut line, &labels.calling(), one.symbol)?;
    }
    text_from(alloc, line)
}

fn add_unknowns(
    alloc: Global,
    lines: &mut Vec<String>,
    labels: &Labels,
    unknowns: &Unknowns,
) -> Result<(), AllocError> {
    for at in 0..unknowns.unknowns.len() {
        let unknown = unknowns.unknowns[at];
        let visible = unknowns.scopes.visible(alloc, unknown.scope)?;
        lines.push(unknown_line(alloc, labels, at, unknown.shape, &visible)?)?;
    }
    Ok(())
}

// A point's templates.
fn point_line(
    alloc: Global,
    types: &mut RefinedTypes,
    scopes: &Scopes,
    assignment: &Assignment,
    labels: &Labels,
    head: &str,
    rows: &[usize],
) -> Result<String, AllocError> {
    let mut line = Vec::new(alloc);
    line.extend_from_slice(head.as_bytes())?;
    push_types(alloc, &mut line, types, scopes, assignment, labels, rows)?;
    text_from(alloc, line)
}

fn lines_of(
    alloc: Global,
    labels: &mut Labels,
    points: &[Point],
    rows: &[Vec<usize>],
    types: &mut RefinedTypes,
    unknowns: SharedUnknowns,
) -> Result<Vec<String>, AllocError> {
    let scopes = unknown_scopes(alloc, &unknowns)?;
    let unknowns = unknowns.flat(alloc)?;
    let assignment = named_unknowns(alloc, labels, unknowns.unknowns.len())?;
    let mut lines = Vec::new(alloc);
    for at in 0..rows.len() {
        let idle = if at < points.len() && is_idle(&points[at]) {
            " idle"
        } else {
            ""
        };
        let head = format!(in alloc; "{at}{idle} : ")?;
        let line = point_line(
            alloc,
            types,
            &scopes,
            &assignment,
            labels,
            head.as_str(),
            &rows[at],
        )?;
        lines.push(line)?;
    }
    add_unknowns(alloc, &mut lines, labels, &unknowns)?;
    Ok(lines)
}

fn lines_for(alloc: Global, labels: &mut Labels, typed: &Typed) -> Result<Vec<String>, AllocError>
    requires { IsPosable typed.now }
{
    let Made {
        program: _program,
        points,
        templates,
        rows,
    } = templates_of(alloc, &typed.noted, &typed.normal)?;
    let (mut types, unknowns) = templates.into_parts();
    lines_of(alloc, labels, &points, &rows, &mut types, unknowns)
}

/// The templates of the points of a case, and the scopes of its unknowns, a line each.
pub(crate) fn points_of(alloc: Global, case: &Case) -> Result<Vec<String>, AllocError> {
    let Some(Labelled { typed, mut labels }) = labelled_case(alloc, case)? else {
        return one_line(alloc, "refused");
    };
    lines_for(alloc, &mut labels, &typed)
}
