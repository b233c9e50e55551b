// Laws of texts. Nothing is run.
ghost use Rattle.lq_sound_adequacy.specs.Texts.Laws.{TextEnvironmentsDiffer, TextImplicationsAreBound, TextImplicationsAreSorted, TextObligationsAreBound, TextsArePosed};

use crate::implications::implications_are_sorted;
use crate::programs::normal_forms_are_sorted;
use crate::subtypings::{
    environments_differ, implications_are_bound, normal_forms_are_posed, obligations_are_bound,
};
use lq_meaning_normal_form::types::scoped_programs_are_plain;
use lq_meaning_normalize::normalize::programs_are_one_pass;
use lq_refined_rules::obligations::obligations_are_implications;
use lq_sound_readiness::binders::binders_of_normal_forms_differ;
use lq_sound_readiness::normal_texts::parsed_programs_are_written;
use lq_sound_readiness::text_programs::{noted_texts_are_ready, noted_texts_are_typed};
use lq_sound_scope::general_uses::noted_texts_use_before;
use lq_sound_scope::name_counts::short_texts_have_twins;
use lq_sound_scope::values::{typed_texts_are_settled, typed_texts_have_arms};
use lq_sound_texts::measures::{text_measures_are_sorted, text_measures_fit};

/// What is read of a typed program of a text is posed as the laws of bound names ask.
pub fn texts_are_posed()
    ensures { TextsArePosed }
{
    noted_texts_are_typed();
    noted_texts_are_ready();
    parsed_programs_are_written();
    scoped_programs_are_plain();
    binders_of_normal_forms_differ();
    programs_are_one_pass();
    short_texts_have_twins();
    typed_texts_are_settled();
    typed_texts_have_arms();
    noted_texts_use_before();
    text_measures_fit();
    normal_forms_are_posed();
}

/// Each of its obligations is in an environment over its own names, and what is asked there speaks of these.
pub fn text_obligations_are_bound()
    ensures { TextObligationsAreBound }
{
    texts_are_posed();
    obligations_are_bound();
}

/// Each of its implications speaks of names that its environment binds, and of v.
pub fn text_implications_are_bound()
    ensures { TextImplicationsAreBound }
{
    texts_are_posed();
    implications_are_bound();
    obligations_are_implications();
}

/// Each of its implications is well sorted in its environment.
pub fn text_implications_are_sorted()
    ensures { TextImplicationsAreSorted }
{
    noted_texts_are_typed();
    noted_texts_are_ready();
    parsed_programs_are_written();
    scoped_programs_are_plain();
    binders_of_normal_forms_differ();
    programs_are_one_pass();
    short_texts_have_twins();
    typed_texts_are_settled();
    typed_texts_have_arms();
    noted_texts_use_before();
    text_measures_fit();
    text_measures_are_sorted();
    normal_forms_are_posed();
    normal_forms_are_sorted();
    implications_are_sorted();
}

/// In the environment of each of its obligations no two names are one, and none is a twin.
pub fn text_environments_differ()
    ensures { TextEnvironmentsDiffer }
{
    noted_texts_are_ready();
    short_texts_have_twins();
    environments_differ();
}
