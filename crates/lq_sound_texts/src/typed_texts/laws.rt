// Laws of typed texts. Nothing is run.
ghost use Rattle.lq_sound_texts.specs.TypedTexts.Instances.{InstancesAreScoped, PredeclaredAreCovariant};
ghost use Rattle.lq_sound_texts.specs.TypedTexts.Safety.{CheckedTextsAreSafe};

use lq_meaning_normal_form::binders::scoped_are_apart;
use lq_meaning_normal_form::outcomes::normal_form_keeps_outcomes;
use lq_meaning_steps::model::same_outcomes;
use lq_meaning_steps::progress::typed_programs;
use lq_refined_rules::checks::list_is_checks;
use lq_refined_templates::points::templates_are_of_points;
use lq_sound_programs::plain::plain_programs_are_safe;
use lq_sound_readiness::normal_texts::annotated_programs_have_types;
use lq_sound_readiness::reading::{what_is_read_is_typed, what_is_read_means_the_same};
use lq_sound_readiness::text_programs::{noted_texts_are_ready, noted_texts_are_typed};

/// Whatever is chosen of the instances of qualifiers speaks of names of the unknowns' scopes alone.
pub fn instances_are_scoped()
    ensures { InstancesAreScoped }
{}

/// In the predeclared datatypes no parameter stands left of an arrow or under `array`.
pub fn predeclared_are_covariant()
    ensures { PredeclaredAreCovariant }
{}

/// A typed program of a text is safe by the meaning of its own definitions, where an assignment makes all implications of its normal form
/// valid, and what is read of that is plain.
pub fn checked_texts_are_safe()
    ensures { CheckedTextsAreSafe }
{
    typed_programs();
    annotated_programs_have_types();
    scoped_are_apart();
    normal_form_keeps_outcomes();
    same_outcomes();
    noted_texts_are_typed();
    noted_texts_are_ready();
    list_is_checks();
    templates_are_of_points();
    what_is_read_is_typed();
    what_is_read_means_the_same();
    plain_programs_are_safe();
}
