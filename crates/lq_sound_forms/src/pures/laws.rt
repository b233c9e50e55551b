// Laws of the definitions. Nothing is run.
ghost use Rattle.lq_sound_forms.specs.Pures.Pures.{ConditionsRun, NumbersRun, UnitsRun};
ghost use Rattle.lq_sound_forms.specs.Pures.Values.{ConditionsGuard, PureTypesAreOver, ValuesRun};

use lq_logic_predicates::whole_numbers_are_a_point;
use lq_meaning_steps::model::{closing, parts_step};
use lq_refined_types::parts::{substitutions, truth_under_substitution};
use lq_refined_types::types::simple_types_are_kept;
use lq_sound_values::inclusion::{like_types_fit, subtypes_fit};
use lq_sound_values::inhabitants::{inhabitants_stay, numbers_below};
use lq_sound_values::instantiation::{instances_fit, instances_stay};

/// A pure expression of whole numbers runs to the value of its term, one of truth values to the truth of its predicate, and one of type unit
/// to unit. It runs to a value that inhabits its type, which speaks of names of the environment, as a condition does.
pub fn pures_run()
    ensures numbers { NumbersRun }
    ensures conditions { ConditionsRun }
    ensures units { UnitsRun }
    ensures values { ValuesRun }
    ensures types { PureTypesAreOver }
    ensures guards { ConditionsGuard }
{
    whole_numbers_are_a_point();
    truth_under_substitution();
    substitutions();
    parts_step();
    closing();
    inhabitants_stay();
    numbers_below();
    subtypes_fit();
    like_types_fit();
    simple_types_are_kept();
    instances_fit();
    instances_stay();
}
