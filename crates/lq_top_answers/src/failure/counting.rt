// How many demands and flows stand before a place of a list of implications.
ghost use Rattle.std.specs.Prelude.{◌≡◌, ◌<◌, length, Some, slice_get};
ghost use Rattle.lq_refined_substitution.specs.Implications.Views.{implications_of};
ghost use Rattle.lq_refined_types.specs.Subtyping.Implication.{Implication};
ghost use Rattle.lq_refined_substitution.specs.Substitution.Views.{part_view};
ghost use Rattle.lq_top_answers.specs.Failure.Heads.{is_alike, is_known, number_among};

use lq_refined_substitution::implications::Implications;
use lq_refined_substitution::substitution::Part;

/// Whether it is a predicate.
pub(crate) fn is_known(part: &Part) -> bool
    ensures { result ≡ is_known (part_view part.now) }
{
    match part {
        Part::Known(_) => true,
        Part::Unknown(_, _) => false,
    }
}

// Whether the implication at this place is a demand, or whether it is a flow.
fn is_counted(implications: &Implications, at: usize, demands: bool) -> bool
    requires { at < length (implications_of implications.now) }
    ensures { (i : Implication) → slice_get (implications_of implications.now) at ≡ Some i
        → result ≡ is_alike demands i }
{
    let Some(implication) = implications.get(at) else {
        unreachable!()
    };
    let known = is_known(&implication.goal);
    if demands { known } else { !known }
}

/// How many of the implications up to this place are demands, or flows.
pub(crate) fn count(implications: &Implications, at: usize, demands: bool) -> usize
    requires { at < length (implications_of implications.now) }
    ensures { result ≡ number_among (implications_of implications.now) at demands }
{
    let mut number: usize = 0;
    for before in 0..at + 1 {
        if is_counted(implications, before, demands) {
            number += 1;
        }
    }
    number
}
