// What a search splits next.
ghost use Rattle.std.specs.Prelude.{◌≡◌, All, IfNone, IfSome, true};
ghost use Rattle.lq_prover_case.specs.State.RowState.{is_solved, row_point};
ghost use Rattle.lq_prover_search.specs.Path.Meeting.{IsAt};
ghost use Rattle.lq_logic_predicates.specs.Points.{Point};
ghost use Rattle.lq_prover_search.specs.Search.Branches.{IsOpenIn};
ghost use Rattle.lq_prover_search.specs.Search.SearchPath.{AreGiven, IsReady, scope_of};
ghost use Rattle.lq_prover_search.specs.Search.Splits.{IsDoneOrMet};

use crate::search::choosing::best_choice;
use crate::search::givens::Givens;
use crate::search::opening::first_open;
use crate::search::search_path::SearchPath;
use std::alloc::Global;

/// A choice or a pair of the path, by its place.
#[derive(Clone, Copy)]
pub(crate) enum Open {
    Choice(usize),
    Pair(usize),
}

/// A choice, or else the first pair, of which no member was taken and none is known to be met.
pub(crate) fn next_open(alloc: Global, givens: &Givens<'_>, path: &SearchPath<'_>) -> Option<Open>
    requires given { AreGiven (scope_of givens.now) givens.now.pairs.now }
    requires ready { IsReady (scope_of givens.now) givens.now.pairs.now path.now }
    requires solved { is_solved path.now.state.rows ≡ true }
    ensures some { IfSome result (IsOpenIn path.now) }
    ensures choices { IfNone result ((p : Point) → IsAt (scope_of givens.now).objects path.now.state p
        → All (IsDoneOrMet (row_point path.now.state.rows) p) path.now.choices.items) }
    ensures pairs { IfNone result ((p : Point) → IsAt (scope_of givens.now).objects path.now.state p
        → All (IsDoneOrMet (row_point path.now.state.rows) p) path.now.pairs.items) }
{
    let objects = givens.objects.as_set();
    if let Some(first) = first_open(&path.state, objects, &path.choices) {
        let best = best_choice(
            alloc,
            &path.state,
            objects,
            &path.choices,
            &path.order,
            first,
        );
        return Some(Open::Choice(best));
    }
    match first_open(&path.state, objects, &path.pairs) {
        Some(at) => Some(Open::Pair(at)),
        None => None,
    }
}
