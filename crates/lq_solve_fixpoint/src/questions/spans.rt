// For each unknown runs of implications in which all stand that speak of it.
ghost use Rattle.std.specs.Prelude.{◌≡◌, ◌⊎◌, ◌<◌, length, map, IfOk, OnOk};
ghost use Rattle.lq_refined_substitution.specs.Implications.Views.{environment_lists, implication_items};
ghost use Rattle.lq_refined_types.specs.Parts.Refuting.{IsUnknown, Speak};
ghost use Rattle.lq_refined_substitution.specs.Substitution.Views.{part_view, parts_view};
ghost use Rattle.lq_solve_fixpoint.specs.Weakening.Index.{AreCovered};
ghost use Rattle.lq_solve_fixpoint.specs.Questions.Assigned.{constraints_of};
ghost use Rattle.lq_solve_fixpoint.specs.Questions.Covering.{Adds, AreBelow, AreRanges, Holds, IsInherited, IsLeft, SpeaksItself};

use crate::questions::ranges::{environment_ranges, widen};
use crate::weakening::Span;
use lq_refined_substitution::implications::{Implication, Implications};
use lq_refined_substitution::substitution::Part;
use std::alloc::{AllocError, Global};

/// Adds a run to those of an unknown, where the unknown is there.
fn add_span(unknown: u64, span: Span, spans: &mut [Vec<Span>]) -> Result<(), AllocError>
    ensures { OnOk result (Adds (λ u k. (u ≡ unknown) × Holds span k) spans.old spans.new) }
{
    if unknown < spans.len() as u64 {
        spans[unknown as usize].push(span)?;
    }
    Ok(())
}

/// Adds a run to those of the unknown that a part is, if it is one.
fn add_part(part: &Part, span: Span, spans: &mut [Vec<Span>]) -> Result<(), AllocError>
    ensures { OnOk result (Adds (λ u k. IsUnknown u (part_view part.now) × Holds span k) spans.old spans.new) }
{
    match part {
        Part::Known(_) => Ok(()),
        Part::Unknown(unknown, _) => add_span(*unknown, span, spans),
    }
}

/// Adds a run to those of each unknown among some parts.
fn add_parts(parts: &[Part], span: Span, spans: &mut [Vec<Span>]) -> Result<(), AllocError>
    ensures { OnOk result (Adds (λ u k. Speak u (map part_view parts.now) × Holds span k) spans.old spans.new) }
{
    for part in parts {
        add_part(part, span, spans)?;
    }
    Ok(())
}

/// Adds a run to those of each unknown of which an implication speaks, but for the hypotheses of its environment.
fn add_implication(
    implication: &Implication,
    span: Span,
    spans: &mut [Vec<Span>],
) -> Result<(), AllocError>
    ensures { OnOk result (Adds (λ u k. (Speak u (parts_view implication.now.left)
        ⊎ IsUnknown u (part_view implication.now.goal)) × Holds span k) spans.old spans.new) }
{
    add_parts(implication.left.as_slice(), span, spans)?;
    add_part(&implication.goal, span, spans)
}

/// Adds to the runs of each unknown the implications that speak of it, but for the hypotheses of their environments.
fn add_implications(implications: &Implications, spans: &mut [Vec<Span>]) -> Result<(), AllocError>
    ensures { OnOk result (Adds (SpeaksItself (implication_items implications.now)) spans.old spans.new) }
{
    for at in 0..implications.len() {
        let Some(implication) = implications.get(at) else {
            unreachable!()
        };
        let number = at as u64;
        let alone = Span {
            start: number,
            end: number + 1,
        };
        add_implication(implication, alone, spans)?;
    }
    Ok(())
}

/// Adds the run of an environment to those of its last hypothesis, and widens that of the environment whose hypotheses it has.
fn leave(
    env: u64,
    implications: &Implications,
    ranges: &mut [Span],
    spans: &mut [Vec<Span>],
) -> Result<(), AllocError>
    requires there { env < length (environment_lists implications.now) }
    requires ranges { length ranges.old ≡ length (environment_lists implications.now) }
    ensures { OnOk result (IsLeft (environment_lists implications.now) env ranges.old ranges.new spans.old spans.new) }
{
    match implications.environment(env) {
        Some((parent, last)) => {
            let range = ranges[env as usize];
            widen(ranges, parent, range);
            add_part(last, range, spans)
        }
        None => Ok(()),
    }
}

/// Adds the run of each environment, with those that have its hypotheses, to those of each unknown among its hypotheses.
fn add_environments(
    implications: &Implications,
    ranges: &mut [Span],
    spans: &mut [Vec<Span>],
) -> Result<(), AllocError>
    requires { length ranges.old ≡ length (environment_lists implications.now) }
    ensures { OnOk result (Adds (IsInherited (environment_lists implications.now)
        (length (environment_lists implications.now)) ranges.old) spans.old spans.new) }
{
    for env in (0..implications.env_count()).rev() {
        leave(env, implications, ranges, spans)?;
    }
    Ok(())
}

/// So many unknowns without runs.
fn no_spans(alloc: Global, unknowns: usize) -> Result<Vec<Vec<Span>>, AllocError>
    ensures { IfOk result (λ spans. length spans.items ≡ unknowns) }
{
    let mut spans = Vec::new(alloc);
    for _ in 0..unknowns {
        spans.push(Vec::new(alloc))?;
    }
    Ok(spans)
}

/// Adds to the runs of each unknown, so that all implications stand in them that speak of it.
fn add_all(
    implications: &Implications,
    ranges: &mut [Span],
    spans: &mut [Vec<Span>],
) -> Result<(), AllocError>
    requires below { AreBelow (length spans.old) (constraints_of implications.now) }
    requires len { length ranges.old ≡ length (environment_lists implications.now) }
    requires within { AreRanges (implication_items implications.now) ranges.old }
    ensures { OnOk result (AreCovered (constraints_of implications.now) spans.new) }
{
    add_environments(implications, ranges, spans)?;
    add_implications(implications, spans)
}

/// For each unknown runs of implications in which all stand that speak of it.
pub fn unknown_spans(
    alloc: Global,
    implications: &Implications,
    unknowns: usize,
) -> Result<Vec<Vec<Span>>, AllocError>
    requires { AreBelow unknowns (constraints_of implications.now) }
    ensures { IfOk result (λ spans. AreCovered (constraints_of implications.now) spans.items) }
{
    let mut spans = no_spans(alloc, unknowns)?;
    let mut ranges = environment_ranges(alloc, implications)?;
    add_all(implications, &mut ranges, &mut spans)?;
    Ok(spans)
}
