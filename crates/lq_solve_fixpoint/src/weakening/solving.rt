// The strongest solution.
ghost use Rattle.std.specs.Prelude.{◌≡◌, ◌<◌, ℕ, Bool, [], IfErr, IfOk, IfNone, IfSome, OnOk, length};
ghost use Rattle.lq_logic_predicates.specs.declared.pred.Stop.{Stop};
ghost use Rattle.lq_solve_fixpoint.specs.Weakening.Chosen.{chosen_in};
ghost use Rattle.lq_solve_fixpoint.specs.Weakening.Index.{AreCovered, AreGoals};
ghost use Rattle.lq_solve_fixpoint.specs.Weakening.Judging.{StopsAt};
ghost use Rattle.lq_solve_fixpoint.specs.Weakening.Solving.{AreCounts, DemandFails, DemandMet, DemandsMet, IsFailingDemand, IsSolved};
ghost use Rattle.lq_solve_fixpoint.specs.Weakening.Waking.{Wakes};
ghost use Rattle.lq_solve_fixpoint.specs.Weakening.Weakening.{IsWeakening};

use crate::weakening::chosen::Chosen;
use crate::weakening::error::SolveError;
use crate::weakening::judge::{Asked, Failure, Judge};
use crate::weakening::span::Span;
use crate::weakening::stepping::{step, stopped};
use crate::weakening::waking::{is_flow, wake_all};
use lq_logic_points::Point;
use lq_logic_predicates::Stop;
use lq_refined_types::parts::unions_of_selections;
use std::alloc::{AllocError, Global};
use std::collections::BTreeSet;

/// What makes all implications valid, or why nothing does.
#[derive(Drop)]
pub enum Solved {
    /// The greatest selection that makes all implications valid.
    Strongest(Chosen),
    /// The greatest selection that makes all flows valid, the number of the first demand that fails under it, and a point at which it fails.
    NoSolution(Chosen, u64, Point),
}

/// All flows, which wait at first.
fn all_flows(alloc: Global, goals: &[Option<u64>]) -> Result<BTreeSet<u64>, AllocError>
    ensures { IfOk result (λ waiting. Wakes goals.now (λ _. Unit {0}) [] waiting.keys) }
{
    let mut waiting = BTreeSet::new(alloc);
    let all = Span {
        start: 0,
        end: goals.len() as u64,
    };
    wake_all(goals, &[all], &mut waiting)?;
    Ok(waiting)
}

/// Asks the flows that wait, the first one next, until none waits.
fn weaken_all<J: Judge>(
    judge: &mut J,
    goals: &[Option<u64>],
    spans: &[Vec<Span>],
    waiting: &mut BTreeSet<u64>,
    chosen: &mut Chosen,
) -> Result<(), SolveError>
    requires goals { AreGoals (J.constraints judge.old) goals.now }
    requires covered { AreCovered (J.constraints judge.old) spans.now }
    requires all { Wakes goals.now (λ _. Unit {0}) [] waiting.old.keys }
    requires kept { J.keeps judge.old (chosen_in chosen.old) }
    ensures weakened { OnOk result (IsWeakening (J.instances judge.old) (J.constraints judge.old) (chosen_in chosen.old)
        waiting.old.keys → IsWeakening (J.instances judge.old) (J.constraints judge.old) (chosen_in chosen.new) []) }
    ensures kept { OnOk result (J.keeps judge.new (chosen_in chosen.new)) }
    ensures stop { IfErr result (StopsAt (J.may_stop judge.old)) }
    ensures instances { J.instances judge.new ≡ J.instances judge.old }
    ensures constraints { J.constraints judge.new ≡ J.constraints judge.old }
    ensures stops { (i : ℕ) (stop : Stop) → J.may_stop judge.new i stop → J.may_stop judge.old i stop }
{
    while let Some(at) = waiting.pop_first() {
        if let Err(stop) = step(judge, goals, spans, at, chosen, waiting) {
            return Err(stop);
        }
    }
    Ok(())
}

/// A point at which the implication of a number fails, where it is a demand that isn't valid.
fn failing_point<J: Judge>(
    judge: &mut J,
    goals: &[Option<u64>],
    at: u64,
    chosen: &Chosen,
) -> Result<Option<Point>, SolveError>
    requires goals { AreGoals (J.constraints judge.old) goals.now }
    requires at { at < length goals.now }
    requires kept { J.keeps judge.old (chosen_in chosen.now) }
    ensures none { IfOk result (λ found. IfNone found (DemandMet (J.instances judge.old) (J.constraints judge.old)
        (chosen_in chosen.now) at)) }
    ensures some { IfOk result (λ found. IfSome found (DemandFails (J.instances judge.old) (J.constraints judge.old)
        (chosen_in chosen.now) at)) }
    ensures kept { J.keeps judge.new (chosen_in chosen.now) }
    ensures stop { IfErr result (StopsAt (J.may_stop judge.old)) }
    ensures instances { J.instances judge.new ≡ J.instances judge.old }
    ensures constraints { J.constraints judge.new ≡ J.constraints judge.old }
    ensures stops { (i : ℕ) (stop : Stop) → J.may_stop judge.new i stop → J.may_stop judge.old i stop }
{
    if is_flow(goals, at) {
        return Ok(None);
    }
    match judge.ask(at, chosen) {
        Ok(Asked::Holds) => Ok(None),
        Ok(Asked::Fails(Failure::Demand(point))) => Ok(Some(point)),
        Ok(Asked::Fails(Failure::Flow(_))) => unreachable!(),
        Err(stop) => Err(stopped(at, stop)),
    }
}

/// The first demand that isn't valid, and a point at which it fails.
fn first_failing<J: Judge>(
    judge: &mut J,
    goals: &[Option<u64>],
    chosen: &Chosen,
) -> Result<Option<(u64, Point)>, SolveError>
    requires goals { AreGoals (J.constraints judge.old) goals.now }
    requires kept { J.keeps judge.old (chosen_in chosen.now) }
    ensures none { IfOk result (λ found. IfNone found (DemandsMet (J.instances judge.old) (J.constraints judge.old)
        (chosen_in chosen.now))) }
    ensures some { IfOk result (λ found. IfSome found (λ f. IsFailingDemand (J.instances judge.old)
        (J.constraints judge.old) (chosen_in chosen.now) f.0 f.1)) }
    ensures stop { IfErr result (StopsAt (J.may_stop judge.old)) }
    ensures instances { J.instances judge.new ≡ J.instances judge.old }
    ensures constraints { J.constraints judge.new ≡ J.constraints judge.old }
    ensures stops { (i : ℕ) (stop : Stop) → J.may_stop judge.new i stop → J.may_stop judge.old i stop }
{
    for at in 0..goals.len() as u64 {
        match failing_point(judge, goals, at, chosen) {
            Ok(None) => {}
            Ok(Some(point)) => return Ok(Some((at, point))),
            Err(stop) => return Err(stop),
        }
    }
    Ok(None)
}

/// The strongest solution, of a judge that keeps nothing.
fn solve_from_nothing<J: Judge>(
    alloc: Global,
    judge: &mut J,
    goals: &[Option<u64>],
    spans: &[Vec<Span>],
    counts: &[u64],
) -> Result<Solved, SolveError>
    requires goals { AreGoals (J.constraints judge.old) goals.now }
    requires covered { AreCovered (J.constraints judge.old) spans.now }
    requires counts { AreCounts (J.instances judge.old) counts.now }
    requires kept { (chosen : ℕ → ℕ → Bool) → J.keeps judge.old chosen }
    ensures solved { IfOk result (IsSolved (J.instances judge.old) (J.constraints judge.old)) }
    ensures stop { IfErr result (StopsAt (J.may_stop judge.old)) }
    ensures instances { J.instances judge.new ≡ J.instances judge.old }
    ensures constraints { J.constraints judge.new ≡ J.constraints judge.old }
    ensures stops { (i : ℕ) (stop : Stop) → J.may_stop judge.new i stop → J.may_stop judge.old i stop }
{
    unions_of_selections();
    let Ok(mut chosen) = Chosen::all(alloc, counts) else {
        return Err(SolveError::Memory);
    };
    let Ok(mut waiting) = all_flows(alloc, goals) else {
        return Err(SolveError::Memory);
    };
    weaken_all(judge, goals, spans, &mut waiting, &mut chosen)?;
    match first_failing(judge, goals, &chosen)? {
        Some((at, point)) => Ok(Solved::NoSolution(chosen, at, point)),
        None => Ok(Solved::Strongest(chosen)),
    }
}

/// The strongest solution of implications, each flow with the unknown of its goal and for each unknown between which implications those
/// stand that speak of it; or the first demand that fails under the greatest selection of instances for the flows. Flows are asked again
/// only where an unknown of which they speak lost an instance, the first one in their order next.
///
/// Whatever comes out, the judge may be asked again: of the same implications over the same instances.
///
/// This is iterative weakening of Rondon, Kawaguchi and Jhala (PLDI 2008), by a worklist.
pub fn solve<J: Judge>(
    alloc: Global,
    judge: &mut J,
    goals: &[Option<u64>],
    spans: &[Vec<Span>],
    counts: &[u64],
) -> Result<Solved, SolveError>
    requires goals { AreGoals (J.constraints judge.old) goals.now }
    requires covered { AreCovered (J.constraints judge.old) spans.now }
    requires counts { AreCounts (J.instances judge.old) counts.now }
    ensures solved { IfOk result (IsSolved (J.instances judge.old) (J.constraints judge.old)) }
    ensures stop { IfErr result (StopsAt (J.may_stop judge.old)) }
    ensures instances { J.instances judge.new ≡ J.instances judge.old }
    ensures constraints { J.constraints judge.new ≡ J.constraints judge.old }
    ensures stops { (i : ℕ) (stop : Stop) → J.may_stop judge.new i stop → J.may_stop judge.old i stop }
{
    judge.reset();
    solve_from_nothing(alloc, judge, goals, spans, counts)
}
