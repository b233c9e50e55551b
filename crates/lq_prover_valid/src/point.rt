// The point of a path on which nothing is left to split.
ghost use Rattle.std.specs.Prelude.{◌≡◌, ◌<◌, IfErr, IfOk, Some, length, slice_get, true};
ghost use Rattle.lq_prover_case.specs.State.Flags.{find_given};
ghost use Rattle.lq_prover_case.specs.State.RowState.{is_solved};
ghost use Rattle.lq_prover_proof_tree.specs.Trees.Path.{nothing, taken};
ghost use Rattle.lq_prover_proof_tree.specs.Literals.Gathered.{CanBeGathered};
ghost use Rattle.lq_prover_search.specs.Path.Meeting.{given_value};
ghost use Rattle.lq_logic_points.specs.Values.{as_point};
ghost use Rattle.lq_logic_predicates.specs.ClosedImplication.{terms_in};
ghost use Rattle.lq_logic_predicates.specs.NnfView.{nnf_view};
ghost use Rattle.lq_logic_predicates.specs.PredView.{implication_of};
ghost use Rattle.lq_prover_valid.specs.Answers.{IsCounterexample, IsReadable};
ghost use Rattle.lq_prover_valid.specs.Openings.{IsOpeningReading};
ghost use Rattle.lq_prover_valid.specs.Stopping.{AreItsFacts, HandsItsRows, IsPointStop};
ghost use Rattle.lq_prover_valid.specs.Values.{AreValuesOf, HasFlagsOf};
ghost use Rattle.lq_prover_search.specs.Search.Pairs.{AreAllPairs};
ghost use Rattle.lq_prover_search.specs.Search.Scope.{IsWithin};
ghost use Rattle.lq_prover_search.specs.Search.SearchPath.{AreGiven, EndsMet, facts_of, scope_of};

use indexmap::{IndexMap, IndexSet};
use lq_logic_points::{Point, PointError, PointValues};
use lq_logic_predicates::{Closed, Nnf, Stop, Symbol, rows_say_what_comparisons_say};
use lq_prover_case::equations::{object_classes, term_values};
use lq_prover_case::state::PathState;
use lq_prover_proof_tree::trees::proved_implications_are_valid;
use lq_prover_search::search::{Givens, SearchPath, settled_paths_are_met};
use std::alloc::{AllocError, Global};

/// The flag at a place.
fn flag_at(flags: &IndexSet<Symbol>, at: usize) -> Symbol
    requires { at < length flags.now.keys }
    ensures { slice_get flags.now.keys at ≡ Some result }
{
    flags[at]
}

/// The truth value that a state gives to a flag, and false where it gives none.
fn value_of(state: &PathState, flag: Symbol) -> bool
    ensures { result ≡ given_value (find_given state.now.flags flag) }
{
    match state.flag(flag) {
        Some(given) => given.value,
        None => false,
    }
}

/// The truth value that a state gives to each flag.
fn flag_values(
    alloc: Global,
    flags: &IndexSet<Symbol>,
    state: &PathState,
) -> Result<IndexMap<Symbol, bool>, AllocError>
    ensures { IfOk result (λ values. HasFlagsOf flags.now.keys state.now values.entries) }
{
    let mut values = IndexMap::new(alloc);
    for at in 0..flags.len() {
        let flag = flag_at(flags, at);
        values.insert(flag, value_of(state, flag))?;
    }
    Ok(values)
}

/// The values of the terms, flags and objects of an implication.
fn values_of(
    alloc: Global,
    implication: &Closed,
    givens: &Givens<'_>,
    state: &PathState,
) -> Result<PointValues, AllocError>
    requires terms { (scope_of givens.now).terms ≡ terms_in (implication_of implication.now) }
    requires solved { is_solved state.now.rows ≡ true }
    requires count { state.now.objects.count ≡ length (scope_of givens.now).objects }
    ensures { IfOk result (AreValuesOf (scope_of givens.now) state.now) }
{
    let table = implication.terms(alloc)?;
    let numbers = term_values(alloc, &table, state)?;
    let flags = flag_values(alloc, givens.flags, state)?;
    let classes = object_classes(alloc, givens.objects, state.classes())?;
    Ok(PointValues::new(numbers, flags, classes, table))
}

/// The point that a path gives on which nothing is left to split.
pub(crate) fn point_of(
    alloc: Global,
    implication: &Closed,
    reading: &Nnf,
    givens: &Givens<'_>,
    path: &SearchPath<'_>,
) -> Result<Point, Stop>
    requires gathers { CanBeGathered (implication_of implication.now) }
    requires terms { (scope_of givens.now).terms ≡ terms_in (implication_of implication.now) }
    requires opening { IsOpeningReading (scope_of givens.now).terms (implication_of implication.now) (nnf_view reading.now) }
    requires within { IsWithin (scope_of givens.now) (nnf_view reading.now) }
    requires given { AreGiven (scope_of givens.now) givens.now.pairs.now }
    requires all { AreAllPairs (scope_of givens.now).terms givens.now.pairs.now }
    requires met { EndsMet (scope_of givens.now) givens.now.pairs.now (taken nothing (nnf_view reading.now)) path.now }
    requires facts { AreItsFacts (implication_of implication.now) (facts_of (scope_of givens.now) path.now) }
    requires handed { HandsItsRows (implication_of implication.now) path.now.state }
    ensures point { IfOk result (λ p. IsCounterexample (implication_of implication.now) (as_point p)) }
    ensures readable { IfOk result (IsReadable (implication_of implication.now)) }
    ensures stop { IfErr result (IsPointStop (implication_of implication.now)) }
{
    rows_say_what_comparisons_say();
    settled_paths_are_met();
    proved_implications_are_valid();
    path.state.values_are_near();
    path.state.values_are_placed();
    path.state.facts_are_few();
    let _terms = givens.terms.len();
    let Ok(values) = values_of(alloc, implication, givens, &path.state) else {
        return Err(Stop::Memory);
    };
    match Point::new(alloc, values, implication) {
        Ok(Some(point)) => Ok(point),
        Ok(None) => unreachable!(),
        Err(PointError::Past(past)) => Err(Stop::Number(past)),
        Err(PointError::Memory) => Err(Stop::Memory),
    }
}
