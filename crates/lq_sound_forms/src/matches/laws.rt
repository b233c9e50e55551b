// Laws of the definitions. Nothing is run.
ghost use Rattle.lq_sound_forms.specs.Matches.Matches.{MatchRuns};

use crate::calls::calls_run;
use crate::fields::fields_fit;
use lq_logic_predicates::whole_numbers_are_a_point;
use lq_meaning_steps::model::{closing, parts_step};
use lq_refined_types::parts::{substitutions, truth_under_substitution};
use lq_refined_types::types::simple_types_are_kept;
use lq_sound_values::inclusion::{like_types_fit, subtypes_fit};
use lq_sound_values::inhabitants::{inhabitants_stay, numbers_below};
use lq_sound_values::instantiation::{instances_fit, instances_stay};

/// A match on a value of a datatype runs well where the arms that the typing rules check do, and where a constructor that no arm names is
/// impossible under its equations.
pub fn matches_run()
    ensures { MatchRuns }
{
    whole_numbers_are_a_point();
    truth_under_substitution();
    substitutions();
    parts_step();
    closing();
    inhabitants_stay();
    numbers_below();
    subtypes_fit();
    like_types_fit();
    simple_types_are_kept();
    instances_fit();
    instances_stay();
    calls_run();
    fields_fit();
}
