// Laws of the definitions. Nothing is run.
ghost use Rattle.lq_sound_forms.specs.Calls.Operands.{CallsRun, OperandsRun};

use lq_logic_predicates::whole_numbers_are_a_point;
use lq_meaning_steps::model::{closing, parts_step};
use lq_refined_types::parts::{substitutions, truth_under_substitution};
use lq_refined_types::types::simple_types_are_kept;
use lq_sound_values::inclusion::{like_types_fit, subtypes_fit};
use lq_sound_values::inhabitants::{inhabitants_stay, numbers_below};
use lq_sound_values::instantiation::{instances_fit, instances_stay};
use lq_sound_values::runs::forms_run;
use lq_sound_values::twins::twins_fit;

/// An operand runs to a value of its type, for which its atom stands; and a call on an operand of a subtype of the argument's type to the
/// result's type, with the operand for the name of the argument.
pub fn calls_run()
    ensures operands { OperandsRun }
    ensures calls { CallsRun }
{
    whole_numbers_are_a_point();
    truth_under_substitution();
    substitutions();
    parts_step();
    closing();
    inhabitants_stay();
    numbers_below();
    subtypes_fit();
    like_types_fit();
    simple_types_are_kept();
    instances_fit();
    instances_stay();
    twins_fit();
    forms_run();
}
