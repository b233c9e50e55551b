// Laws of the definitions. Nothing is run.
ghost use Rattle.lq_sound_forms.specs.Builds.Builds.{BuildsRun};

use crate::fields::fields_fit;
use crate::tuples::tuples_run;
use lq_logic_predicates::whole_numbers_are_a_point;
use lq_meaning_steps::model::{closing, parts_step};
use lq_refined_types::parts::{substitutions, truth_under_substitution};
use lq_sound_values::inclusion::{like_types_fit, subtypes_fit};
use lq_sound_values::inhabitants::{inhabitants_stay, numbers_below};

/// A constructor on operands whose types are subtypes of its unfolded fields runs to the datatype with the constructor's equations at its top.
pub fn builds_run()
    ensures { BuildsRun }
{
    whole_numbers_are_a_point();
    truth_under_substitution();
    substitutions();
    parts_step();
    closing();
    inhabitants_stay();
    numbers_below();
    subtypes_fit();
    like_types_fit();
    fields_fit();
    tuples_run();
}
