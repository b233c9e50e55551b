// Laws of the definitions. Nothing is run.
ghost use Rattle.lq_sound_readiness.specs.Uses.Laws.{NormalUsesFit, TypedUsesFit};

use crate::normal_scope::normal_forms_are_scoped;
use lq_meaning_normal_form::types::made_names_run;
use lq_types_rules::typings::visits_are_rules;
use lq_types_rules::visits::scoped_visits_are_in;

/// Where the uses in a scoped program fit, those in its normal form do, made names among them.
pub fn normal_uses_fit()
    ensures { NormalUsesFit }
{
    normal_forms_are_scoped();
    made_names_run();
}

/// The uses in a scoped program fit an annotation by the program's types, and by what instantiates its uses of generalised definitions.
pub fn typed_uses_fit()
    ensures { TypedUsesFit }
{
    visits_are_rules();
    scoped_visits_are_in();
}
