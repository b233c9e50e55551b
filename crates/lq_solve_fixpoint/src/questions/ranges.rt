// For each environment a run in which its implications stand.
ghost use Rattle.std.specs.Prelude.{◌≡◌, ◌<◌, ℕ, length, IfOk};
ghost use Rattle.lq_refined_substitution.specs.Implications.Views.{environment_lists, implication_items};
ghost use Rattle.lq_solve_fixpoint.specs.Questions.Covering.{AreRanges, Holds, range_at};

use crate::weakening::Span;
use lq_refined_substitution::implications::Implications;
use std::alloc::{AllocError, Global};

/// The least run that holds what either of two holds.
fn joined(left: Span, right: Span) -> Span
    ensures left { (k : ℕ) → Holds left k → Holds result k }
    ensures right { (k : ℕ) → Holds right k → Holds result k }
{
    Span {
        start: left.start.min(right.start),
        end: left.end.max(right.end),
    }
}

/// Widens the run of an environment to hold another, where the environment is there.
pub(crate) fn widen(ranges: &mut [Span], env: u64, by: Span)
    ensures kept { (e k : ℕ) → Holds (range_at ranges.old e) k → Holds (range_at ranges.new e) k }
    ensures widened { (k : ℕ) → env < length ranges.old → Holds by k → Holds (range_at ranges.new env) k }
{
    if env < ranges.len() as u64 {
        ranges[env as usize] = joined(ranges[env as usize], by);
    }
}

/// Widens the run of each environment to hold its implications.
fn widen_all(implications: &Implications, ranges: &mut [Span])
    ensures { AreRanges (implication_items implications.now) ranges.new }
{
    for at in 0..implications.len() {
        let Some(implication) = implications.get(at) else {
            unreachable!()
        };
        let number = at as u64;
        let alone = Span {
            start: number,
            end: number + 1,
        };
        widen(ranges, implication.env, alone);
    }
}

/// For each environment a run in which its implications stand, and an empty one where it has none.
pub(crate) fn environment_ranges(
    alloc: Global,
    implications: &Implications,
) -> Result<Vec<Span>, AllocError>
    ensures len { IfOk result (λ ranges. length ranges.items ≡ length (environment_lists implications.now)) }
    ensures within { IfOk result (λ ranges. AreRanges (implication_items implications.now) ranges.items) }
{
    let empty = Span {
        start: implications.len() as u64,
        end: 0,
    };
    let mut ranges = vec![in alloc; empty; implications.env_count() as usize]?;
    widen_all(implications, &mut ranges);
    Ok(ranges)
}
