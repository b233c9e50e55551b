// The strongest solution by the prover.
ghost use Rattle.std.specs.Prelude.{ℕ, List, IfErr, IfOk, OnOk};
ghost use Rattle.lq_refined_types.specs.Parts.Constraint.{Constraint};
ghost use Rattle.lq_solve_fixpoint.specs.Questions.Assigned.{constraints_of, instances_in};
ghost use Rattle.lq_solve_fixpoint.specs.Weakening.Judging.{Instances as Lists, StopsAt};
ghost use Rattle.lq_solve_fixpoint.specs.Weakening.Solving.{IsSolved};
ghost use Rattle.lq_solve_strongest.specs.Weaken.Gathering.{AreGathered};
ghost use Rattle.lq_solve_strongest.specs.Weaken.Stops.{MayStop, StopsAsking, StopsSolving};

use crate::weaken::asking::Questions;
use crate::weaken::counts::instance_counts;
use crate::weaken::gathering::first_ungathered;
use crate::weaken::unknowns::unknown_count;
use lq_logic_predicates::Stop;
use lq_refined_instances::Instances;
use lq_refined_substitution::implications::Implications;
use lq_solve_facts::store::Kept;
use lq_solve_fixpoint::questions::{goal_unknowns, unknown_spans};
use lq_solve_fixpoint::weakening::{SolveError, Solved};
use std::alloc::{AllocError, Global};

/// A stop of the prover at an implication, where want of memory is no implication's.
fn stopped(at: u64, stop: Stop) -> SolveError
    ensures { (limit : ℕ) (I : Lists) (cs : List Constraint) → AreGathered I cs → StopsAsking limit I cs at stop → StopsSolving limit I cs result }
{
    match stop {
        Stop::Number(past) => SolveError::At(at, Stop::Number(past)),
        Stop::Gather(pred) => SolveError::At(at, Stop::Gather(pred)),
        Stop::Pivots(count) => SolveError::At(at, Stop::Pivots(count)),
        Stop::Memory => SolveError::Memory,
    }
}

/// The same of what weakening says.
fn stop_of(error: SolveError) -> SolveError
    ensures { (limit : ℕ) (I : Lists) (cs : List Constraint) → AreGathered I cs → StopsAt (MayStop limit I cs) error → StopsSolving limit I cs result }
{
    match error {
        SolveError::At(at, stop) => stopped(at, stop),
        SolveError::Memory => SolveError::Memory,
    }
}

/// The strongest solution of implications, each of which can be gathered.
fn solve_gathered(
    alloc: Global,
    implications: &Implications,
    instances: &Instances,
    limit: u64,
) -> Result<Solved, SolveError>
    requires { AreGathered (instances_in instances.now) (constraints_of implications.now) }
    ensures solved { IfOk result (IsSolved (instances_in instances.now) (constraints_of implications.now)) }
    ensures stop { IfErr result (StopsSolving limit (instances_in instances.now) (constraints_of implications.now)) }
{
    let Ok(unknowns) = unknown_count(implications) else {
        return Err(SolveError::Memory);
    };
    let Ok(goals) = goal_unknowns(alloc, implications) else {
        return Err(SolveError::Memory);
    };
    let Ok(spans) = unknown_spans(alloc, implications, unknowns as usize) else {
        return Err(SolveError::Memory);
    };
    let Ok(counts) = instance_counts(alloc, instances) else {
        return Err(SolveError::Memory);
    };
    let Ok(kept) = Kept::new(alloc, implications, limit) else {
        return Err(SolveError::Memory);
    };
    let mut questions = Questions {
        alloc,
        implications,
        instances,
        limit,
        kept,
    };
    match lq_solve_fixpoint::weakening::solve(alloc, &mut questions, &goals, &spans, &counts) {
        Ok(solved) => Ok(solved),
        Err(error) => Err(stop_of(error)),
    }
}

/// The strongest solution of implications over instances, or the first demand that fails under the greatest choice of instances that makes all
/// flows valid. First each literal of
/// each implication is gathered, all instances in place; then flows are weakened; then demands are asked in order. A check makes at most
/// `limit` pivots.
///
/// This is iterative weakening of Rondon, Kawaguchi and Jhala (PLDI 2008).
pub fn solve(
    alloc: Global,
    implications: &Implications,
    instances: &Instances,
    limit: u64,
) -> Result<Solved, SolveError>
    ensures solved { IfOk result (IsSolved (instances_in instances.now) (constraints_of implications.now)) }
    ensures gathered { OnOk result (AreGathered (instances_in instances.now) (constraints_of implications.now)) }
    ensures stop { IfErr result (StopsSolving limit (instances_in instances.now) (constraints_of implications.now)) }
{
    match first_ungathered(alloc, implications, instances) {
        Ok(Some((at, pred))) => Err(SolveError::At(at, Stop::Gather(pred))),
        Ok(None) => solve_gathered(alloc, implications, instances, limit),
        Err(AllocError) => Err(SolveError::Memory),
    }
}
