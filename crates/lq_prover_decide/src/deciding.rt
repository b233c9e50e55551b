// Deciding a case.
ghost use Rattle.std.specs.Prelude.{◌≡◌, [], All, IfErr, IfOk, IsTrue, length};
ghost use Rattle.lq_prover_case.specs.State.RowState.{terms_of as row_terms};
ghost use Rattle.lq_prover_proof_tree.specs.Trees.Proves.{Proves};
ghost use Rattle.lq_prover_proof_tree.specs.Trees.TreeView.{tree_view};
ghost use Rattle.lq_prover_decide.specs.Answer.{HasNoPoint, IfHas, IfNoPoint};
ghost use Rattle.lq_prover_decide.specs.Case.{numbering_of, path_of};
ghost use Rattle.lq_prover_decide.specs.CaseView.{case_of};
ghost use Rattle.lq_prover_decide.specs.Deciding.{Fits, HoldsCase, IsChainOfEquals, PairsAreDecided};
ghost use Rattle.lq_prover_case.specs.Equations.Naming.{AllBelow, HasAllArguments, HasAllSides, name_in, objects_of};
ghost use Rattle.lq_prover_case.specs.State.PathState.{HasHanded, facts_in};
ghost use Rattle.lq_prover_decide.specs.Settled.{IsSettled};
ghost use Rattle.lq_prover_decide.specs.Small.{IsNoNumber, IsSmallCase};
ghost use Rattle.lq_prover_decide.specs.Stopping.{HandsItsRows, IsStopOf, StopsDeciding};
ghost use Rattle.lq_logic_points.specs.Values.{as_point};
ghost use Rattle.lq_logic_predicates.specs.ClosedImplication.{IsPoint};
ghost use Rattle.lq_logic_predicates.specs.Comparison.{CanGather};
ghost use Rattle.lq_logic_predicates.specs.Literals.{implication_literals};

use crate::answer::CaseAnswer;
use crate::laws::proved_cases_have_no_point;
use crate::literals::Literals;
use crate::objects::case_objects;
use crate::searching::refute;
use crate::values::case_values;
use lq_logic_points::{Point, PointError};
use lq_logic_predicates::{Stop, rows_say_what_comparisons_say};
use lq_logic_rows::LinearStop;
use lq_prover_case::equations::ObjectTable;
use lq_prover_case::state::PathState;
use lq_prover_pivots::work::levels_agree;
use lq_prover_small_rows::{rows_are_there, small_rows_fit};
use std::alloc::{AllocError, Global};

/// The stop of an engine, as that of a case.
fn stop_of(stop: LinearStop) -> Stop
    ensures { IsStopOf stop result }
{
    match stop {
        LinearStop::Number(past) => Stop::Number(past),
        LinearStop::Pivots(count) => Stop::Pivots(count),
        LinearStop::Memory => Stop::Memory,
    }
}

/// The point of a case by a state that took its literals.
fn case_point(
    alloc: Global,
    literals: &Literals,
    objects: &ObjectTable,
    state: &PathState,
    limit: u64,
) -> Result<Point, Stop>
    requires gathers { All CanGather (implication_literals (case_of literals.now).implication) }
    requires fits { Fits (case_of literals.now) }
    requires pairs { PairsAreDecided (case_of literals.now) }
    requires arguments { HasAllArguments (objects_of objects.now) (case_of literals.now).terms }
    requires settled { IsSettled (objects_of objects.now) (case_of literals.now) state.now }
    requires handed { HandsItsRows (case_of literals.now) state.now }
    requires terms { row_terms state.now.rows ≡ length (case_of literals.now).terms }
    requires count { state.now.objects.count ≡ length (objects_of objects.now) }
    ensures point { IfOk result (λ p. IsPoint (case_of literals.now).implication (as_point p)) }
    ensures case { IfOk result (HoldsCase (case_of literals.now)) }
    ensures stop { IfErr result (StopsDeciding limit (case_of literals.now)) }
{
    rows_say_what_comparisons_say();
    state.values_are_placed();
    state.facts_are_few();
    let _terms = literals.table().len();
    let _count = objects.len();
    let Ok(values) = case_values(alloc, literals, objects, state) else {
        return Err(Stop::Memory);
    };
    match Point::new(alloc, values, literals.implication()) {
        Ok(Some(point)) => Ok(point),
        Ok(None) => unreachable!(),
        Err(PointError::Past(past)) => Err(Stop::Number(past)),
        Err(PointError::Memory) => Err(Stop::Memory),
    }
}

/// What a case comes to by a state that has taken nothing yet.
fn decide_by(
    alloc: Global,
    literals: &Literals,
    objects: &ObjectTable,
    state: &mut PathState,
    limit: u64,
) -> Result<CaseAnswer, Stop>
    requires gathers { All CanGather (implication_literals (case_of literals.now).implication) }
    requires fits { Fits (case_of literals.now) }
    requires pairs { PairsAreDecided (case_of literals.now) }
    requires empty { facts_in (name_in (objects_of objects.now)) state.old ≡ [] }
    requires handed { HasHanded state.old [] }
    requires sides { HasAllSides (objects_of objects.now) (case_of literals.now).facts }
    requires arguments { HasAllArguments (objects_of objects.now) (case_of literals.now).terms }
    requires below { AllBelow (row_terms state.old.rows) (case_of literals.now).facts }
    requires count { state.old.objects.count ≡ length (objects_of objects.now) }
    requires terms { row_terms state.old.rows ≡ length (case_of literals.now).terms }
    requires limit { state.old.rows.pivots ≡ limit }
    ensures point { IfOk result (λ answer. IfHas answer (λ p. IsPoint (case_of literals.now).implication
        (as_point p))) }
    ensures case { IfOk result (λ answer. IfHas answer (HoldsCase (case_of literals.now))) }
    ensures tree { IfOk result (λ answer. IfNoPoint answer (λ t. Proves (numbering_of (case_of literals.now))
        (path_of (case_of literals.now)) (tree_view t))) }
    ensures form { IfOk result (λ answer. IfNoPoint answer (λ t. IsChainOfEquals (tree_view t))) }
    ensures none { IfOk result (λ answer. IfNoPoint answer (λ _. HasNoPoint (case_of literals.now))) }
    ensures stop { IfErr result (StopsDeciding limit (case_of literals.now)) }
{
    proved_cases_have_no_point();
    let _terms = literals.table().len();
    match refute(alloc, literals, objects, state) {
        Ok(Some(tree)) => Ok(CaseAnswer::NoPoint(tree)),
        Ok(None) => Ok(CaseAnswer::Has(case_point(alloc, literals, objects, state, limit)?)),
        Err(stop) => Err(stop_of(stop)),
    }
}

/// The same as `decide`, of any sizes.
fn decide_case(alloc: Global, literals: &Literals, limit: u64) -> Result<CaseAnswer, Stop>
    requires gathers { All CanGather (implication_literals (case_of literals.now).implication) }
    requires fits { Fits (case_of literals.now) }
    requires pairs { PairsAreDecided (case_of literals.now) }
    ensures point { IfOk result (λ answer. IfHas answer (λ p. IsPoint (case_of literals.now).implication
        (as_point p))) }
    ensures case { IfOk result (λ answer. IfHas answer (HoldsCase (case_of literals.now))) }
    ensures tree { IfOk result (λ answer. IfNoPoint answer (λ t. Proves (numbering_of (case_of literals.now))
        (path_of (case_of literals.now)) (tree_view t))) }
    ensures form { IfOk result (λ answer. IfNoPoint answer (λ t. IsChainOfEquals (tree_view t))) }
    ensures none { IfOk result (λ answer. IfNoPoint answer (λ _. HasNoPoint (case_of literals.now))) }
    ensures stop { IfErr result (StopsDeciding limit (case_of literals.now)) }
{
    let table = literals.table();
    let Ok(objects) = case_objects(alloc, literals.facts().as_slice(), table) else {
        return Err(Stop::Memory);
    };
    let Ok(count) = u32::try_from(objects.len()) else {
        return Err(Stop::Memory);
    };
    let Ok(mut state) = PathState::new(alloc, table.len(), limit, count) else {
        return Err(Stop::Memory);
    };
    decide_by(alloc, literals, &objects, &mut state, limit)
}

/// Whether a case has a point: with one at which each literal holds, or with a tree that proves the path of the literals. Lengths and
/// measures of one object are made equal; of products, quotients and remainders the literals have to say in which way each two stand.
/// A check makes at most `limit` pivots.
///
/// It stops only as an engine on the rows of the case may, or where a literal of the implication has no value of 128 bits at the point,
/// or for want of memory.
pub fn decide(alloc: Global, literals: &Literals, limit: u64) -> Result<CaseAnswer, Stop>
    requires gathers { All CanGather (implication_literals (case_of literals.now).implication) }
    requires fits { Fits (case_of literals.now) }
    requires pairs { PairsAreDecided (case_of literals.now) }
    ensures point { IfOk result (λ answer. IfHas answer (λ p. IsPoint (case_of literals.now).implication
        (as_point p))) }
    ensures case { IfOk result (λ answer. IfHas answer (HoldsCase (case_of literals.now))) }
    ensures tree { IfOk result (λ answer. IfNoPoint answer (λ t. Proves (numbering_of (case_of literals.now))
        (path_of (case_of literals.now)) (tree_view t))) }
    ensures form { IfOk result (λ answer. IfNoPoint answer (λ t. IsChainOfEquals (tree_view t))) }
    ensures none { IfOk result (λ answer. IfNoPoint answer (λ _. HasNoPoint (case_of literals.now))) }
    ensures stop { IfErr result (StopsDeciding limit (case_of literals.now)) }
    ensures fits { IfErr result (λ stop. IsSmallCase (case_of literals.now) → IsNoNumber stop) }
{
    rows_say_what_comparisons_say();
    small_rows_fit();
    rows_are_there();
    levels_agree();
    let _terms = literals.table().len();
    decide_case(alloc, literals, limit)
}
