// Flows that are to be asked again.
ghost use Rattle.std.specs.Prelude.{◌≡◌, true, OnOk};
ghost use Rattle.lq_solve_fixpoint.specs.Weakening.Index.{IsWithinOne};
ghost use Rattle.lq_solve_fixpoint.specs.Weakening.Waking.{IsFlowAt, IsIn, Wakes};

use crate::weakening::span::Span;
use std::alloc::AllocError;
use std::collections::BTreeSet;

/// Whether the implication of a number is a flow.
pub(crate) fn is_flow(goals: &[Option<u64>], at: u64) -> bool
    ensures is { result ≡ true → IsFlowAt goals.now at }
    ensures not { IsFlowAt goals.now at → result ≡ true }
{
    match goals.get(at as usize) {
        Some(goal) => goal.is_some(),
        None => false,
    }
}

/// Lets the implication of a number wait, where it is a flow.
fn wake(goals: &[Option<u64>], at: u64, waiting: &mut BTreeSet<u64>) -> Result<(), AllocError>
    ensures { OnOk result (Wakes goals.now (λ k. k ≡ at) waiting.old.keys waiting.new.keys) }
{
    if is_flow(goals, at) {
        waiting.insert(at)?;
    }
    Ok(())
}

/// Lets the flows of a run wait.
fn wake_span(
    goals: &[Option<u64>],
    span: Span,
    waiting: &mut BTreeSet<u64>,
) -> Result<(), AllocError>
    ensures { OnOk result (Wakes goals.now (IsIn span.start span.end) waiting.old.keys waiting.new.keys) }
{
    for at in span.start..span.end.min(goals.len() as u64) {
        wake(goals, at, waiting)?;
    }
    Ok(())
}

/// Lets the flows of some runs wait.
pub(crate) fn wake_all(
    goals: &[Option<u64>],
    spans: &[Span],
    waiting: &mut BTreeSet<u64>,
) -> Result<(), AllocError>
    ensures { OnOk result (Wakes goals.now (IsWithinOne spans.now) waiting.old.keys waiting.new.keys) }
{
    for span in spans {
        wake_span(goals, *span, waiting)?;
    }
    Ok(())
}
