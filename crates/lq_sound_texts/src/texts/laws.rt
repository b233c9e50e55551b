// Laws of texts. Nothing is run.
ghost use Rattle.lq_sound_texts.specs.Texts.Laws.{TextsArePlain, TextsAreSafe};

use crate::measures::text_measures_fit;
use crate::typed_texts::checked_texts_are_safe;
use lq_meaning_normal_form::types::scoped_programs_are_plain;
use lq_meaning_normalize::normalize::programs_are_one_pass;
use lq_sound_programs::scenes::measures_are_known;
use lq_sound_readiness::binders::binders_of_normal_forms_differ;
use lq_sound_readiness::normal_texts::parsed_programs_are_written;
use lq_sound_readiness::text_programs::{noted_texts_are_ready, noted_texts_are_typed};
use lq_sound_scope::general_uses::noted_texts_use_before;
use lq_sound_scope::name_counts::short_texts_have_twins;
use lq_sound_scope::scalars::scalar_normal_forms_are_plain;
use lq_sound_scope::values::{typed_texts_are_settled, typed_texts_have_arms};

/// What is read of a typed program of a text is plain, under instances that speak of what their unknowns may speak of.
pub fn texts_are_plain()
    ensures { TextsArePlain }
{
    noted_texts_are_typed();
    noted_texts_are_ready();
    parsed_programs_are_written();
    scoped_programs_are_plain();
    binders_of_normal_forms_differ();
    programs_are_one_pass();
    short_texts_have_twins();
    typed_texts_are_settled();
    typed_texts_have_arms();
    noted_texts_use_before();
    scalar_normal_forms_are_plain();
    text_measures_fit();
}

/// A program of a text is safe where such an assignment makes all of its implications valid.
pub fn texts_are_safe()
    ensures { TextsAreSafe }
{
    texts_are_plain();
    checked_texts_are_safe();
    text_measures_fit();
    measures_are_known();
}
