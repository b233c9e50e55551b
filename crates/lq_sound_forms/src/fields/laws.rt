// Laws of the definitions. Nothing is run.
ghost use Rattle.lq_sound_forms.specs.Fields.Fields.{EquationsAreTrue, FieldsFit};
ghost use Rattle.lq_sound_forms.specs.Fields.Standing.{PutPartsAreTrue};

use lq_logic_predicates::whole_numbers_are_a_point;
use lq_refined_types::parts::{substitutions, truth_under_substitution};
use lq_sound_values::inhabitants::{datatypes_fit, inhabitants_stay, numbers_below};

/// What the fields of a constructor's value inhabit by the relation they inhabit by the typing rules, where what is put for `#1`, `#2`, ..
/// stands for the fields, and the equations of measures are true of it.
pub fn fields_fit()
    ensures parts { PutPartsAreTrue }
    ensures fields { FieldsFit }
    ensures equations { EquationsAreTrue }
{
    whole_numbers_are_a_point();
    truth_under_substitution();
    substitutions();
    inhabitants_stay();
    numbers_below();
    datatypes_fit();
}
