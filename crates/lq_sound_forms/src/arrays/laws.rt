// Laws of the definitions. Nothing is run.
ghost use Rattle.lq_sound_forms.specs.Arrays.Arrays.{FetchRuns, MakeRuns, StoreRuns};

use lq_logic_predicates::whole_numbers_are_a_point;
use lq_meaning_steps::model::{closing, parts_step};
use lq_refined_types::parts::{substitutions, truth_under_substitution};
use lq_sound_values::inclusion::{like_types_fit, subtypes_fit};
use lq_sound_values::inhabitants::{inhabitants_stay, numbers_below};

/// A new array of a length that isn't below 0, an element at an index of an array, and a store there meet no fault, and are of their types.
pub fn arrays_run()
    ensures fetches { FetchRuns }
    ensures makes { MakeRuns }
    ensures stores { StoreRuns }
{
    whole_numbers_are_a_point();
    truth_under_substitution();
    substitutions();
    parts_step();
    closing();
    inhabitants_stay();
    numbers_below();
    subtypes_fit();
    like_types_fit();
}
