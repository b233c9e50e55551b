// Proving an implication, or finding a point at which it fails.
ghost use Rattle.std.specs.Prelude.{◌≡◌, ◌+◌, ◌≤◌, IfErr, IfOk, IsTrue, OnOk, []};
ghost use Rattle.lq_prover_case.specs.State.PathState.{HasHanded};
ghost use Rattle.lq_prover_proof_tree.specs.Trees.Path.{nothing, taken};
ghost use Rattle.lq_prover_proof_tree.specs.Trees.TreeView.{tree_view};
ghost use Rattle.lq_prover_proof_tree.specs.Literals.Gathered.{CanBeGathered, sizes};
ghost use Rattle.lq_logic_points.specs.Values.{as_point};
ghost use Rattle.lq_logic_predicates.specs.ClosedImplication.{IsValid, terms_in};
ghost use Rattle.lq_logic_predicates.specs.Literals.{all_pairs as pair_literals};
ghost use Rattle.lq_logic_predicates.specs.NnfView.{nnf_view};
ghost use Rattle.lq_logic_predicates.specs.PredView.{implication_of};
ghost use Rattle.lq_logic_predicates.specs.Table.{all_differ};
ghost use Rattle.lq_logic_predicates.specs.TableView.{terms_of};
ghost use Rattle.lq_prover_valid.specs.Answers.{IfFails, IfValid, IsCounterexample, IsReadable, ProvesImplication};
ghost use Rattle.lq_prover_valid.specs.Openings.{IsOpeningReading};
ghost use Rattle.lq_prover_valid.specs.Small.{IsNoNumber, IsSmallImplication};
ghost use Rattle.lq_prover_valid.specs.Stopping.{IsSmallDifference, IsStopOf, StopsProving, StopsReading, StopsSmall};
ghost use Rattle.lq_prover_valid.specs.Standing.{IsStanding};
ghost use Rattle.lq_prover_search.specs.Search.Pairs.{AreAllPairs, AreOrdered};
ghost use Rattle.lq_prover_search.specs.Search.Scope.{IsWithin};
ghost use Rattle.lq_prover_search.specs.Search.SearchPath.{AreGiven, path_of, scope_of, ways_of};
ghost use Rattle.lq_prover_search.specs.Search.Sizes.{most, most_of_each, row_size};
ghost use Rattle.lq_prover_search.specs.Search.Stopping.{most_on};

use crate::answer::Answer;
use crate::names::object_table;
use crate::point::point_of;
use crate::readings::{halves, opening_reading};
use crate::standing::{Asked, Standing};
use lq_logic_predicates::{Closed, Nnf, Stop, TermTable, rows_say_what_comparisons_say};
use lq_logic_rows::LinearStop;
use lq_prover_pivots::work::levels_agree;
use lq_prover_proof_tree::literals::{
    first_past, first_past_application, flags, objects, sources_have_the_literals,
};
use lq_prover_proof_tree::trees::proved_implications_are_valid;
use lq_prover_search::search::{Givens, all_pairs};
use lq_prover_small_rows::{rows_are_there, small_rows_fit};
use std::alloc::{AllocError, Global};

/// The stop of an engine.
fn stop_of(stop: LinearStop) -> Stop
    ensures { IsStopOf stop result }
{
    match stop {
        LinearStop::Number(past) => Stop::Number(past),
        LinearStop::Pivots(count) => Stop::Pivots(count),
        LinearStop::Memory => Stop::Memory,
    }
}

/// Whether an implication is valid, by its reading and what the reading speaks of, where a part of it stands and another is still to be asked.
fn prove_standing<'a>(
    alloc: Global,
    implication: &Closed,
    reading: &Nnf,
    goal: &'a Nnf,
    givens: &Givens<'a>,
    standing: Standing<'a>,
) -> Result<Answer, Stop>
    requires gathers { CanBeGathered (implication_of implication.now) }
    requires terms { (scope_of givens.now).terms ≡ terms_in (implication_of implication.now) }
    requires opening { IsOpeningReading (scope_of givens.now).terms (implication_of implication.now) (nnf_view reading.now) }
    requires within { IsWithin (scope_of givens.now) (nnf_view reading.now) }
    requires goal_within { IsWithin (scope_of givens.now) (nnf_view goal.now) }
    requires given { AreGiven (scope_of givens.now) givens.now.pairs.now }
    requires all { AreAllPairs (scope_of givens.now).terms givens.now.pairs.now }
    requires ordered { AreOrdered givens.now.pairs.now }
    requires standing { IsStanding standing }
    requires givens { standing.givens ≡ givens.now }
    requires parts { taken (path_of (scope_of givens.now) standing.path) (nnf_view goal.now) ≡ taken nothing (nnf_view reading.now) }
    requires handed { HasHanded standing.path.state [] }
    requires sizes { most_on (scope_of givens.now) standing.path + most row_size (nnf_view goal.now)
        ≤ sizes (pair_literals (scope_of givens.now).terms) + most row_size (nnf_view reading.now) }
    ensures tree { IfOk result (λ answer. IfValid answer (λ t. ProvesImplication (implication_of implication.now)
        (tree_view t))) }
    ensures point { IfOk result (λ answer. IfFails answer (λ p. IsCounterexample (implication_of implication.now)
        (as_point p))) }
    ensures readable { IfOk result (λ answer. IfFails answer (IsReadable (implication_of implication.now))) }
    ensures stop { IfErr result (StopsProving standing.entry.path.state.rows.pivots (implication_of implication.now)) }
{
    let asked = match standing.ask(alloc, goal) {
        Ok(asked) => asked,
        Err(stop) => return Err(stop_of(stop)),
    };
    match asked {
        Asked::Proved(tree, _) => Ok(Answer::Valid(tree)),
        Asked::Open(ended) => match point_of(alloc, implication, reading, givens, &ended.path) {
            Ok(point) => Ok(Answer::Fails(point)),
            Err(stop) => Err(stop),
        },
    }
}

/// The same by all of the reading, where it is made here that nothing stands. A check makes at most `limit` pivots.
fn prove_whole<'a>(
    alloc: Global,
    implication: &Closed,
    reading: &'a Nnf,
    givens: &Givens<'a>,
    limit: u64,
) -> Result<Answer, Stop>
    requires gathers { CanBeGathered (implication_of implication.now) }
    requires terms { (scope_of givens.now).terms ≡ terms_in (implication_of implication.now) }
    requires opening { IsOpeningReading (scope_of givens.now).terms (implication_of implication.now) (nnf_view reading.now) }
    requires within { IsWithin (scope_of givens.now) (nnf_view reading.now) }
    requires given { AreGiven (scope_of givens.now) givens.now.pairs.now }
    requires all { AreAllPairs (scope_of givens.now).terms givens.now.pairs.now }
    requires ordered { AreOrdered givens.now.pairs.now }
    requires sizes { most_of_each (ways_of givens.now.pairs.now) ≤ sizes (pair_literals (scope_of givens.now).terms) }
    ensures tree { IfOk result (λ answer. IfValid answer (λ t. ProvesImplication (implication_of implication.now)
        (tree_view t))) }
    ensures point { IfOk result (λ answer. IfFails answer (λ p. IsCounterexample (implication_of implication.now)
        (as_point p))) }
    ensures readable { IfOk result (λ answer. IfFails answer (IsReadable (implication_of implication.now))) }
    ensures stop { IfErr result (StopsProving limit (implication_of implication.now)) }
{
    let Ok(standing) = Standing::new(alloc, *givens, limit) else {
        return Err(Stop::Memory);
    };
    prove_standing(alloc, implication, reading, reading, givens, standing)
}

/// The same, where the hypotheses stand before the goal is asked. Hypotheses that clash by themselves clash at once in all of the reading.
fn prove_given<'a>(
    alloc: Global,
    implication: &Closed,
    reading: &'a Nnf,
    givens: &Givens<'a>,
    limit: u64,
) -> Result<Answer, Stop>
    requires gathers { CanBeGathered (implication_of implication.now) }
    requires terms { (scope_of givens.now).terms ≡ terms_in (implication_of implication.now) }
    requires opening { IsOpeningReading (scope_of givens.now).terms (implication_of implication.now) (nnf_view reading.now) }
    requires within { IsWithin (scope_of givens.now) (nnf_view reading.now) }
    requires given { AreGiven (scope_of givens.now) givens.now.pairs.now }
    requires all { AreAllPairs (scope_of givens.now).terms givens.now.pairs.now }
    requires ordered { AreOrdered givens.now.pairs.now }
    requires sizes { most_of_each (ways_of givens.now.pairs.now) ≤ sizes (pair_literals (scope_of givens.now).terms) }
    ensures tree { IfOk result (λ answer. IfValid answer (λ t. ProvesImplication (implication_of implication.now)
        (tree_view t))) }
    ensures point { IfOk result (λ answer. IfFails answer (λ p. IsCounterexample (implication_of implication.now)
        (as_point p))) }
    ensures readable { IfOk result (λ answer. IfFails answer (IsReadable (implication_of implication.now))) }
    ensures stop { IfErr result (StopsProving limit (implication_of implication.now)) }
{
    let Some((hypotheses, goal)) = halves(reading) else {
        return prove_whole(alloc, implication, reading, givens, limit);
    };
    let Ok(mut standing) = Standing::new(alloc, *givens, limit) else {
        return Err(Stop::Memory);
    };
    let clash = match standing.assume(alloc, hypotheses) {
        Ok(clash) => clash,
        Err(stop) => return Err(stop_of(stop)),
    };
    match clash {
        Some(_) => prove_whole(alloc, implication, reading, givens, limit),
        None => prove_standing(alloc, implication, reading, goal, givens, standing),
    }
}

/// Whether an implication is valid, by the reading of its hypotheses and its negated goal: all of them in order, whose rows are over the
/// terms of the implication. Both tables have these terms; the second one is used up.
pub fn prove(
    alloc: Global,
    implication: &Closed,
    reading: &Nnf,
    table: &TermTable,
    copied: TermTable,
    limit: u64,
) -> Result<Answer, Stop>
    requires gathers { CanBeGathered (implication_of implication.now) }
    requires terms { terms_of table.now ≡ terms_in (implication_of implication.now) }
    requires copied { terms_of copied ≡ terms_in (implication_of implication.now) }
    requires opening { IsOpeningReading (terms_of table.now) (implication_of implication.now) (nnf_view reading.now) }
    ensures tree { IfOk result (λ answer. IfValid answer (λ t. ProvesImplication (implication_of implication.now)
        (tree_view t))) }
    ensures point { IfOk result (λ answer. IfFails answer (λ p. IsCounterexample (implication_of implication.now)
        (as_point p))) }
    ensures readable { IfOk result (λ answer. IfFails answer (IsReadable (implication_of implication.now))) }
    ensures stop { IfErr result (StopsProving limit (implication_of implication.now)) }
    ensures small { IfErr result (λ stop. IsSmallDifference (implication_of implication.now) → StopsSmall stop) }
    ensures fits { IfErr result (λ stop. IsSmallImplication (implication_of implication.now) → IsNoNumber stop) }
{
    rows_say_what_comparisons_say();
    small_rows_fit();
    rows_are_there();
    levels_agree();
    let _terms = table.len();
    let Ok(named) = objects(alloc, implication) else {
        return Err(Stop::Memory);
    };
    let Ok(objects) = object_table(alloc, &named, table) else {
        return Err(Stop::Memory);
    };
    let Ok(flags) = flags(alloc, implication) else {
        return Err(Stop::Memory);
    };
    let Ok(pairs) = all_pairs(alloc, table, copied) else {
        return Err(Stop::Memory);
    };
    let givens = Givens {
        terms: table,
        objects: &objects,
        flags: &flags,
        pairs: &pairs,
    };
    prove_given(alloc, implication, reading, &givens, limit)
}

/// What is made of an implication before it is proved: the reading of its hypotheses and its negated goal, and two tables of its terms.
#[derive(Drop)]
struct Gathered {
    reading: Nnf,
    table: TermTable,
    copied: TermTable,
}

/// Why an implication isn't proved of which some literal can't be gathered.
fn first_stop(alloc: Global, implication: &Closed) -> Stop
    requires { CanBeGathered (implication_of implication.now) → ⊥ }
    ensures { StopsReading (implication_of implication.now) result }
{
    match first_past(alloc, implication) {
        Ok(Some(pred)) => Stop::Gather(pred),
        Ok(None) => unreachable!(),
        Err(AllocError) => Stop::Memory,
    }
}

/// What is made of an implication each literal of which can be gathered. No term has two numbers.
fn gather_implication(alloc: Global, implication: &Closed) -> Result<Gathered, Stop>
    ensures gathers { OnOk result (CanBeGathered (implication_of implication.now)) }
    ensures terms { IfOk result (λ g. terms_of g.table ≡ terms_in (implication_of implication.now)) }
    ensures copied { IfOk result (λ g. terms_of g.copied ≡ terms_in (implication_of implication.now)) }
    ensures opening { IfOk result (λ g. IsOpeningReading (terms_in (implication_of implication.now))
        (implication_of implication.now) (nnf_view g.reading)) }
    ensures distinct { OnOk result (IsTrue (all_differ (terms_in (implication_of implication.now)))) }
    ensures stop { IfErr result (StopsReading (implication_of implication.now)) }
{
    let Ok(table) = implication.terms(alloc) else {
        return Err(Stop::Memory);
    };
    let _count = table.len();
    let Ok(mut copied) = implication.terms(alloc) else {
        return Err(Stop::Memory);
    };
    match opening_reading(alloc, implication, &mut copied) {
        Ok(Some(reading)) => match first_past_application(alloc, &table) {
            Ok(Some(pred)) => Err(Stop::Gather(pred)),
            Ok(None) => Ok(Gathered {
                reading,
                table,
                copied,
            }),
            Err(AllocError) => Err(Stop::Memory),
        },
        Ok(None) => Err(first_stop(alloc, implication)),
        Err(AllocError) => Err(Stop::Memory),
    }
}

/// Whether an implication is valid: with a tree that proves it, or with a point that meets its hypotheses and its negated goal. Where a
/// literal can't be gathered, the first such comparison is the answer. A check makes at most `limit` pivots.
pub fn valid(alloc: Global, implication: &Closed, limit: u64) -> Result<Answer, Stop>
    ensures tree { IfOk result (λ answer. IfValid answer (λ t. ProvesImplication (implication_of implication.now)
        (tree_view t))) }
    ensures valid { IfOk result (λ answer. IfValid answer (λ _. IsValid (implication_of implication.now))) }
    ensures point { IfOk result (λ answer. IfFails answer (λ p. IsCounterexample (implication_of implication.now)
        (as_point p))) }
    ensures readable { IfOk result (λ answer. IfFails answer (IsReadable (implication_of implication.now))) }
    ensures fails { IfOk result (λ answer. IfFails answer (λ _. IsValid (implication_of implication.now) → ⊥)) }
    ensures gathered { OnOk result (CanBeGathered (implication_of implication.now)) }
    ensures stop { IfErr result (StopsProving limit (implication_of implication.now)) }
    ensures small { IfErr result (λ stop. IsSmallDifference (implication_of implication.now) → StopsSmall stop) }
    ensures fits { IfErr result (λ stop. IsSmallImplication (implication_of implication.now) → IsNoNumber stop) }
{
    proved_implications_are_valid();
    sources_have_the_literals();
    match gather_implication(alloc, implication) {
        Ok(
            Gathered {
                reading,
                table,
                copied,
            },
        ) => prove(alloc, implication, &reading, &table, copied, limit),
        Err(stop) => Err(stop),
    }
}
