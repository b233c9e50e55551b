// What is still to be split.
ghost use Rattle.std.specs.Prelude.{◌≡◌, All, IfNone, IfSome, IsTrue, false, length, map, take, true};
ghost use Rattle.lq_prover_case.specs.State.RowState.{is_solved, row_point, terms_of};
ghost use Rattle.lq_prover_search.specs.Path.Meeting.{IsAt, IsPastInAny};
ghost use Rattle.lq_prover_search.specs.Path.Readings.{AreOver};
ghost use Rattle.lq_logic_predicates.specs.NnfView.{nnfs_view};
ghost use Rattle.lq_logic_predicates.specs.Points.{Point};
ghost use Rattle.lq_logic_predicates.specs.RowMeaning.{MeetsAnyRow};
ghost use Rattle.lq_logic_predicates.specs.TermView.{sum_of};
ghost use Rattle.lq_prover_search.specs.Search.Splits.{IsDoneOrMet, IsOpen, IsUnmet};

use crate::path::{Choice, meets_any};
use indexmap::IndexSet;
use lq_logic_predicates::Term;
use lq_prover_case::state::PathState;

/// Whether one of the readings was taken, or is known to be met.
fn is_settled(state: &PathState, objects: &IndexSet<Term>, choice: &Choice<'_>) -> bool
    requires solved { is_solved state.now.rows ≡ true }
    requires over { AreOver (terms_of state.now.rows) (map sum_of objects.now.keys) (nnfs_view choice.now.members.now) }
    requires count { state.now.objects.count ≡ length objects.now.keys }
    ensures open { result ≡ false → choice.now.is_done ≡ false }
    ensures settled { (p : Point) → IsAt (map sum_of objects.now.keys) state.now p → IsTrue result
        → IsDoneOrMet (row_point state.now.rows) p choice.now }
    ensures unknown { (p : Point) → IsAt (map sum_of objects.now.keys) state.now p → result ≡ false
        → MeetsAnyRow (row_point state.now.rows) p (nnfs_view choice.now.members.now)
        → IsPastInAny (row_point state.now.rows) (nnfs_view choice.now.members.now) }
{
    choice.is_done || meets_any(state, objects, choice.members)
}

/// The first choice of which no reading was taken and none is known to be met.
pub fn first_open(
    state: &PathState,
    objects: &IndexSet<Term>,
    choices: &[Choice<'_>],
) -> Option<usize>
    requires solved { is_solved state.now.rows ≡ true }
    requires over { All (λ c. AreOver (terms_of state.now.rows) (map sum_of objects.now.keys) (nnfs_view c.members.now))
        choices.now }
    requires count { state.now.objects.count ≡ length objects.now.keys }
    ensures some { IfSome result (IsOpen choices.now) }
    ensures unmet { IfSome result (λ at. (p : Point) → IsAt (map sum_of objects.now.keys) state.now p
        → IsUnmet (row_point state.now.rows) p choices.now at) }
    ensures first { IfSome result (λ at. (p : Point) → IsAt (map sum_of objects.now.keys) state.now p
        → All (IsDoneOrMet (row_point state.now.rows) p) (take at choices.now)) }
    ensures none { IfNone result ((p : Point) → IsAt (map sum_of objects.now.keys) state.now p
        → All (IsDoneOrMet (row_point state.now.rows) p) choices.now) }
{
    for at in 0..choices.len() {
        if !is_settled(state, objects, &choices[at]) {
            return Some(at);
        }
    }
    None
}
