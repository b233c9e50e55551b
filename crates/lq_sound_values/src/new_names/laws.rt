// Laws of the definitions. Nothing is run.
ghost use Rattle.lq_sound_values.specs.NewNames.NewNames.{SubtypesAreApart};

use crate::inclusion::{like_types_fit, subtypes_fit};
use crate::inhabitants::{inhabitants_stay, numbers_below};
use lq_logic_predicates::whole_numbers_are_a_point;
use lq_meaning_steps::model::{closing, parts_step};
use lq_refined_types::parts::{substitutions, truth_under_substitution};

/// In a closed environment each subtyping of two types in scope, one of which has no names of arguments, is apart.
pub fn subtypes_are_apart()
    ensures { SubtypesAreApart }
{
    whole_numbers_are_a_point();
    truth_under_substitution();
    substitutions();
    parts_step();
    closing();
    inhabitants_stay();
    numbers_below();
    subtypes_fit();
    like_types_fit();
}
