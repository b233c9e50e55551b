// The prover as who says which implications are valid.
ghost use Rattle.std.specs.Prelude.{◌≡◌, ◌<◌, length, slice_get, IfOk, IfErr, IfSome, IsTrue};
ghost use Rattle.lq_refined_substitution.specs.Implications.Views.{environment_lists};
ghost use Rattle.lq_solve_facts.specs.Store.Kept.{HasReadings, IsKeptFor};
ghost use Rattle.lq_prover_proof_tree.specs.Literals.Gathered.{CanBeGathered};
ghost use Rattle.lq_refined_types.specs.Parts.Assignment.{goal_under};
ghost use Rattle.lq_refined_types.specs.Parts.Flowing.{assigned};
ghost use Rattle.lq_logic_points.specs.Values.{as_point};
ghost use Rattle.lq_logic_predicates.specs.PredView.{implication_of};
ghost use Rattle.lq_prover_valid.specs.Answers.{IsCounterexample, IsReadable};
ghost use Rattle.lq_solve_fixpoint.specs.Questions.Assigned.{assignment_of, closed_under, constraints_of, instances_in};
ghost use Rattle.lq_refined_types.specs.Parts.Part.{unknown as unknown_part};
ghost use Rattle.lq_refined_substitution.specs.Substitution.Views.{subst_view};
ghost use Rattle.lq_solve_fixpoint.specs.Weakening.Chosen.{chosen_in};
ghost use Rattle.lq_solve_fixpoint.specs.Weakening.Judging.{AreRefuted, FailsThere, HoldsThere, IfFails, IfHolds};
ghost use Rattle.lq_solve_strongest.specs.Weaken.Stops.{MayStop};

use crate::weaken::laws::some_instances_gather;
use crate::weaken::refuting::refuted;
use lq_logic_points::Point;
use lq_logic_predicates::{Closed, Stop};
use lq_prover_proof_tree::literals::sources_have_the_literals;
use lq_prover_valid::{Answer, valid};
use lq_refined_instances::Instances;
use lq_refined_substitution::implications::Implications;
use lq_refined_substitution::substitution::{Part, Subst};
use lq_solve_facts::nearest::follows;
use lq_solve_facts::store::{Answer as Told, Kept};
use lq_solve_fixpoint::questions::closed_implication;
use lq_solve_fixpoint::weakening::{Asked, Chosen, Failure, Judge};
use std::alloc::{AllocError, Global};

/// The chosen instances of an unknown, with something put for their symbols, that are refuted at a point of the closed implication of which
/// they are the goal.
fn refuted_of(
    alloc: Global,
    unknown: u64,
    by: &Subst,
    instances: &Instances,
    chosen: &Chosen,
    closed: &Closed,
    point: &Point,
) -> Result<Vec<u64>, AllocError>
    requires goal { (implication_of closed.now).goal ≡ goal_under (assignment_of instances.now chosen.now)
        (unknown_part unknown (subst_view by.now)) }
    requires gathers { CanBeGathered (implication_of closed.now) }
    requires readable { IsReadable (implication_of closed.now) point.now }
    ensures { IfOk result (λ numbers. AreRefuted (chosen_in chosen.now unknown) (as_point point.now) (subst_view by.now)
        (instances_in instances.now unknown) numbers.items) }
{
    match instances.get(unknown as usize) {
        Some(list) => {
            let mut table = closed.terms(alloc)?;
            refuted(alloc, unknown, by, list, chosen, point, &mut table)
        }
        None => {
            let none = Vec::new(alloc);
            Ok(none)
        }
    }
}

/// Implications with the instances of their unknowns, a limit on pivots, and the facts of the last environment that was asked about.
#[derive(Drop)]
pub(crate) struct Questions<'a> {
    pub(crate) alloc: Global,
    pub(crate) implications: &'a Implications,
    pub(crate) instances: &'a Instances,
    pub(crate) limit: u64,
    pub(crate) kept: Kept,
}

impl Questions<'_> {
    /// The closed implication of a number under the chosen instances.
    fn closed(&self, at: u64, chosen: &Chosen) -> Result<Closed, AllocError>
        requires { at < length (constraints_of self.now.implications.now) }
        ensures { IfOk result (λ closed. IfSome (slice_get (constraints_of self.now.implications.now) at)
            (λ k. implication_of closed ≡ closed_under (assignment_of self.now.instances.now chosen.now) k)) }
    {
        let count = self.implications.len();
        prove!(count <= 262144);
        match closed_implication(
            self.alloc,
            self.implications,
            at as u32,
            self.instances,
            chosen,
        ) {
            Ok(Some(closed)) => Ok(closed),
            Ok(None) => unreachable!(),
            Err(AllocError) => Err(AllocError),
        }
    }

    /// What a point at which an implication fails refutes.
    fn failure(
        &self,
        at: u64,
        chosen: &Chosen,
        closed: &Closed,
        point: Point,
    ) -> Result<Failure, AllocError>
        requires there { at < length (constraints_of self.now.implications.now) }
        requires closed { IfSome (slice_get (constraints_of self.now.implications.now) at)
            (λ k. implication_of closed.now ≡ closed_under (assignment_of self.now.instances.now chosen.now) k) }
        requires gathers { CanBeGathered (implication_of closed.now) }
        requires point { IsCounterexample (implication_of closed.now) (as_point point) }
        requires readable { IsReadable (implication_of closed.now) point }
        ensures { IfOk result (FailsThere (instances_in self.now.instances.now)
            (constraints_of self.now.implications.now) (chosen_in chosen.now) at) }
    {
        let Some(implication) = self.implications.get(at as usize) else {
            unreachable!()
        };
        match &implication.goal {
            Part::Known(_) => Ok(Failure::Demand(point)),
            Part::Unknown(unknown, by) => {
                let refuted = refuted_of(
                    self.alloc,
                    *unknown,
                    by,
                    self.instances,
                    chosen,
                    closed,
                    &point,
                )?;
                Ok(Failure::Flow(refuted))
            }
        }
    }

    /// Whether an implication is known to follow from its nearest hypotheses.
    fn follows_nearby(&self, at: u64, chosen: &Chosen) -> bool
        requires { at < length (constraints_of self.now.implications.now) }
        ensures { IsTrue result → HoldsThere (instances_in self.now.instances.now)
            (constraints_of self.now.implications.now) (chosen_in chosen.now) at }
    {
        match follows(
            self.alloc,
            self.implications,
            at,
            self.instances,
            chosen,
            self.limit,
        ) {
            Ok(found) => found,
            Err(AllocError) => false,
        }
    }

    /// Whether an implication is valid under the chosen instances. The prover is asked where it isn't known to follow from its nearest
    /// hypotheses.
    fn judged(&self, at: u64, chosen: &Chosen) -> Result<Asked, Stop>
        requires { at < length (constraints_of self.now.implications.now) }
        ensures holds { IfOk result (λ asked. IfHolds asked (HoldsThere (instances_in self.now.instances.now)
            (constraints_of self.now.implications.now) (chosen_in chosen.now) at)) }
        ensures fails { IfOk result (λ asked. IfFails asked (FailsThere (instances_in self.now.instances.now)
            (constraints_of self.now.implications.now) (chosen_in chosen.now) at)) }
        ensures stop { IfErr result (MayStop self.now.limit (instances_in self.now.instances.now)
            (constraints_of self.now.implications.now) at) }
    {
        if self.follows_nearby(at, chosen) {
            return Ok(Asked::Holds);
        }
        some_instances_gather();
        sources_have_the_literals();
        let Ok(closed) = self.closed(at, chosen) else {
            return Err(Stop::Memory);
        };
        match valid(self.alloc, &closed, self.limit) {
            Ok(Answer::Valid(_tree)) => Ok(Asked::Holds),
            Ok(Answer::Fails(point)) => match self.failure(at, chosen, &closed, point) {
                Ok(failure) => Ok(Asked::Fails(failure)),
                Err(AllocError) => Err(Stop::Memory),
            },
            Err(stop) => Err(stop),
        }
    }
}

impl Judge for Questions<'_> {
    ghost instances = { λ q. instances_in q.instances.now };

    ghost constraints = { λ q. constraints_of q.implications.now };

    ghost may_stop = { λ q. MayStop q.limit (instances_in q.instances.now) (constraints_of q.implications.now) };

    ghost keeps = { λ q chosen. IsKeptFor (assigned (instances_in q.instances.now) chosen) (environment_lists q.implications.now) q.kept
        × HasReadings (instances_in q.instances.now) (environment_lists q.implications.now) (constraints_of q.implications.now) q.kept };

    fn ask(&mut self, at: u64, chosen: &Chosen) -> Result<Asked, Stop> {
        match self.kept.ask(self.implications, at, self.instances, chosen) {
            Ok(Told::Holds) => Ok(Asked::Holds),
            Ok(Told::Refuted(numbers)) => Ok(Asked::Fails(Failure::Flow(numbers))),
            Ok(Told::Open) | Err(AllocError) => self.judged(at, chosen),
        }
    }

    fn forget(&mut self, unknown: u64) {
        self.kept.forget(unknown);
    }

    fn reset(&mut self) {
        self.kept.clear();
    }
}
