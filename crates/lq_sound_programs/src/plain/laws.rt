// Laws of the definitions. Nothing is run.
ghost use Rattle.lq_sound_programs.specs.Plain.DataExample.{DataExampleIsPlain};
ghost use Rattle.lq_sound_programs.specs.Plain.Plain.{PlainProgramsAreSafe};

use crate::safety::checks_are_safe;
use lq_logic_predicates::whole_numbers_are_a_point;
use lq_meaning_steps::model::{closing, parts_step};
use lq_refined_types::parts::{substitutions, truth_under_substitution};
use lq_refined_types::types::simple_types_are_kept;
use lq_sound_forms::pures::pures_run;
use lq_sound_values::inclusion::{like_types_fit, subtypes_fit};
use lq_sound_values::inhabitants::{inhabitants_stay, numbers_below};
use lq_sound_values::instantiation::{instances_fit, instances_stay};
use lq_sound_values::new_names::subtypes_are_apart;

/// A simply typed program of plain forms that checks under an assignment is safe.
pub fn plain_programs_are_safe()
    ensures { PlainProgramsAreSafe }
{
    whole_numbers_are_a_point();
    truth_under_substitution();
    substitutions();
    parts_step();
    closing();
    inhabitants_stay();
    numbers_below();
    subtypes_fit();
    like_types_fit();
    simple_types_are_kept();
    instances_fit();
    instances_stay();
    subtypes_are_apart();
    pures_run();
    checks_are_safe();
}

/// A program with a list, a tuple and a match on each is plain.
pub fn data_example_is_plain()
    ensures { DataExampleIsPlain }
{}
