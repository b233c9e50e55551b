// Laws of the definitions. Nothing is run.
ghost use Rattle.lq_sound_forms.specs.Quotients.Quotients.{QuotientRuns, RemainderRuns};

use lq_logic_predicates::whole_numbers_are_a_point;
use lq_meaning_steps::model::{closing, parts_step};
use lq_refined_types::parts::{substitutions, truth_under_substitution};
use lq_sound_values::inclusion::{like_types_fit, subtypes_fit};
use lq_sound_values::inhabitants::{inhabitants_stay, numbers_below};

/// A quotient and a remainder by what isn't 0 meet no fault, and are as the typing rules say of them.
pub fn quotients_run()
    ensures quotients { QuotientRuns }
    ensures remainders { RemainderRuns }
{
    whole_numbers_are_a_point();
    truth_under_substitution();
    substitutions();
    parts_step();
    closing();
    inhabitants_stay();
    numbers_below();
    subtypes_fit();
    like_types_fit();
}
