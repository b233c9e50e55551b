// Laws of the definitions. Nothing is run.
ghost use Rattle.lq_sound_forms.specs.Tuples.Tuples.{FirstArmRuns, RowsRun, TuplesRun};

use crate::calls::calls_run;
use lq_logic_predicates::whole_numbers_are_a_point;
use lq_meaning_steps::model::{closing, parts_step};
use lq_refined_types::parts::{substitutions, truth_under_substitution};
use lq_refined_types::types::simple_types_are_kept;
use lq_sound_values::inclusion::{like_types_fit, subtypes_fit};
use lq_sound_values::inhabitants::{datatypes_fit, inhabitants_stay, numbers_below};
use lq_sound_values::instantiation::{instances_fit, instances_stay};

/// Operands in a row run to values of their types, a tuple of them inhabits the tuple of their types, and a match on a value of no datatype
/// runs well where its first arm does.
pub fn tuples_run()
    ensures rows { RowsRun }
    ensures tuples { TuplesRun }
    ensures matches { FirstArmRuns }
{
    whole_numbers_are_a_point();
    truth_under_substitution();
    substitutions();
    parts_step();
    closing();
    inhabitants_stay();
    numbers_below();
    datatypes_fit();
    subtypes_fit();
    like_types_fit();
    simple_types_are_kept();
    instances_fit();
    instances_stay();
    calls_run();
}
