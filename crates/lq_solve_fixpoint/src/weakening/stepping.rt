// A flow is asked, and what a point refutes is taken out.
ghost use Rattle.std.specs.Prelude.{◌≡◌, ◌<◌, ◌⊎◌, ◌∷◌, ℕ, List, Some, All, IfErr, OnOk, slice_get};
ghost use Rattle.std.specs.List.Sorted.{IsStrictlySortedBy};
ghost use Rattle.std.specs.Ordering.{nat_cmp};
ghost use Rattle.lq_refined_types.specs.Parts.Constraint.{Constraint};
ghost use Rattle.lq_solve_fixpoint.specs.Weakening.Chosen.{AgreeBut, chosen_in, total};
ghost use Rattle.lq_solve_fixpoint.specs.Weakening.Index.{AreCovered, AreGoals, spans_at};
ghost use Rattle.lq_solve_fixpoint.specs.Weakening.Judging.{FlowFailsThere, Instances, StopsAt};
ghost use Rattle.lq_solve_fixpoint.specs.Weakening.Waking.{IsFlowAt};
ghost use Rattle.lq_solve_fixpoint.specs.Weakening.Weakening.{IsWeakening};
ghost use Rattle.lq_logic_predicates.specs.declared.pred.Stop.{Stop};

use crate::weakening::chosen::Chosen;
use crate::weakening::error::SolveError;
use crate::weakening::judge::{Asked, Failure, Judge};
use crate::weakening::removing::remove_all;
use crate::weakening::span::Span;
use crate::weakening::waking::wake_all;
use lq_logic_predicates::Stop;
use lq_refined_types::parts::refuted_instances;
use std::alloc::AllocError;
use std::collections::BTreeSet;

/// A stop at an implication.
pub(crate) fn stopped(at: u64, stop: Stop) -> SolveError
    ensures { StopsAt (λ i s. (i ≡ at) × (s ≡ stop)) result }
{
    match stop {
        Stop::Memory => SolveError::Memory,
        Stop::Number(past) => SolveError::At(at, Stop::Number(past)),
        Stop::Gather(pred) => SolveError::At(at, Stop::Gather(pred)),
        Stop::Pivots(count) => SolveError::At(at, Stop::Pivots(count)),
    }
}

/// The unknown of a flow's goal.
fn unknown_of(goals: &[Option<u64>], at: u64) -> u64
    requires { IsFlowAt goals.now at }
    ensures { slice_get goals.now at ≡ Some (Some result) }
{
    match goals[at as usize] {
        Some(unknown) => unknown,
        None => unreachable!(),
    }
}

/// The runs of an unknown.
fn spans_of(spans: &[Vec<Span>], unknown: u64) -> &[Span]
    ensures { result.now ≡ spans_at spans.now unknown }
{
    match spans.get(unknown as usize) {
        Some(row) => row.as_slice(),
        None => &[],
    }
}

/// Takes instances of an unknown out that are refuted at a point, and lets the flows that speak of it wait.
fn weaken(
    goals: &[Option<u64>],
    spans: &[Vec<Span>],
    unknown: u64,
    refuted: &[u64],
    chosen: &mut Chosen,
    waiting: &mut BTreeSet<u64>,
) -> Result<(), AllocError>
    ensures weakening { OnOk result ((I : Instances) (cs : List Constraint) (at : ℕ) → AreGoals cs goals.now → AreCovered cs spans.now
        → slice_get goals.now at ≡ Some (Some unknown) → FlowFailsThere I cs (chosen_in chosen.old) at refuted.now
        → IsWeakening I cs (chosen_in chosen.old) (at ∷ waiting.old.keys)
        → IsWeakening I cs (chosen_in chosen.new) waiting.new.keys) }
    ensures falls { OnOk result ((I : Instances) (cs : List Constraint) (at : ℕ) → AreGoals cs goals.now
        → slice_get goals.now at ≡ Some (Some unknown) → FlowFailsThere I cs (chosen_in chosen.old) at refuted.now
        → total chosen.new < total chosen.old) }
    ensures agree { OnOk result (AgreeBut unknown (chosen_in chosen.old) (chosen_in chosen.new)) }
    ensures flows { OnOk result (All (IsFlowAt goals.now) waiting.old.keys → All (IsFlowAt goals.now) waiting.new.keys) }
    ensures sorted { OnOk result (IsStrictlySortedBy nat_cmp waiting.old.keys → IsStrictlySortedBy nat_cmp waiting.new.keys) }
{
    refuted_instances();
    remove_all(chosen, unknown, refuted);
    wake_all(goals, spans_of(spans, unknown), waiting)?;
    Ok(())
}

/// Asks a flow. Where it fails, fewer instances of its goal's unknown are chosen, and the judge forgets what speaks of it; else nothing changes.
pub(crate) fn step<J: Judge>(
    judge: &mut J,
    goals: &[Option<u64>],
    spans: &[Vec<Span>],
    at: u64,
    chosen: &mut Chosen,
    waiting: &mut BTreeSet<u64>,
) -> Result<(), SolveError>
    requires goals { AreGoals (J.constraints judge.old) goals.now }
    requires covered { AreCovered (J.constraints judge.old) spans.now }
    requires flow { IsFlowAt goals.now at }
    requires kept { J.keeps judge.old (chosen_in chosen.old) }
    ensures weakening { OnOk result (IsWeakening (J.instances judge.old) (J.constraints judge.old) (chosen_in chosen.old)
        (at ∷ waiting.old.keys) → IsWeakening (J.instances judge.old) (J.constraints judge.old) (chosen_in chosen.new)
        waiting.new.keys) }
    ensures falls { OnOk result ((total chosen.new < total chosen.old)
        ⊎ ((total chosen.new ≡ total chosen.old) × (waiting.new.keys ≡ waiting.old.keys))) }
    ensures flows { OnOk result (All (IsFlowAt goals.now) waiting.old.keys → All (IsFlowAt goals.now) waiting.new.keys) }
    ensures sorted { OnOk result (IsStrictlySortedBy nat_cmp waiting.old.keys → IsStrictlySortedBy nat_cmp waiting.new.keys) }
    ensures kept { OnOk result (J.keeps judge.new (chosen_in chosen.new)) }
    ensures stop { IfErr result (StopsAt (J.may_stop judge.old)) }
    ensures instances { J.instances judge.new ≡ J.instances judge.old }
    ensures constraints { J.constraints judge.new ≡ J.constraints judge.old }
    ensures stops { (i : ℕ) (stop : Stop) → J.may_stop judge.new i stop → J.may_stop judge.old i stop }
{
    match judge.ask(at, chosen) {
        Ok(Asked::Holds) => Ok(()),
        Ok(Asked::Fails(Failure::Flow(refuted))) => {
            let unknown = unknown_of(goals, at);
            judge.forget(unknown);
            match weaken(goals, spans, unknown, &refuted, chosen, waiting) {
                Ok(()) => Ok(()),
                Err(AllocError) => Err(SolveError::Memory),
            }
        }
        Ok(Asked::Fails(Failure::Demand(_))) => unreachable!(),
        Err(stop) => Err(stopped(at, stop)),
    }
}
