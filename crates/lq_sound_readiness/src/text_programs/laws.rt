// Laws of typed texts. Nothing is run.
ghost use Rattle.lq_sound_readiness.specs.TextPrograms.Laws.{NotedTextsAreReady, NotedTextsAreTyped, ReadyIsOnce};

use crate::binders::binders_of_normal_forms_differ;
use crate::normal_reading::normal_forms_can_be_read;
use crate::normal_texts::parsed_programs_are_written;
use crate::programs::normal_programs_are_ready;
use crate::typed_texts::typed_texts_suit;
use crate::uses::{normal_uses_fit, typed_uses_fit};
use lq_generate_reading::general_names::general_uses_have_texts;
use lq_generate_reading::source_names::{
    made_names_are_not_read, normal_forms_keep_texts, resolved_programs_define_texts,
};
use lq_meaning_normal_form::types::{
    made_names_run, programs_keep_types, scoped_programs_are_plain,
};
use lq_meaning_normalize::normalize::programs_are_one_pass;
use lq_types_rules::typings::renamed_are_principal;
use lq_types_rules::visits::scoped_items_own_slots;

/// That a program is ready for its implications is a proposition.
pub fn ready_is_once()
    ensures { ReadyIsOnce }
{}

/// The normal form of a typed program, whose text was read from tokens, obeys the rules of types for normal trees, and its uses fit, by an
/// annotation by which the same is read as by what is known of the program's nodes and binders.
pub fn noted_texts_are_typed()
    ensures { NotedTextsAreTyped }
{
    renamed_are_principal();
    scoped_items_own_slots();
    parsed_programs_are_written();
    scoped_programs_are_plain();
    programs_keep_types();
    made_names_run();
    typed_texts_suit();
    normal_forms_can_be_read();
    typed_uses_fit();
    normal_uses_fit();
    general_uses_have_texts();
    resolved_programs_define_texts();
    normal_forms_keep_texts();
    made_names_are_not_read();
    programs_are_one_pass();
}

/// What is read of the normal form of a typed program, whose text was read from tokens, is ready for its implications, over the
/// constructors of its datatypes, by what is known of its nodes and binders.
pub fn noted_texts_are_ready()
    ensures { NotedTextsAreReady }
{
    ready_is_once();
    noted_texts_are_typed();
    parsed_programs_are_written();
    scoped_programs_are_plain();
    binders_of_normal_forms_differ();
    normal_programs_are_ready();
    programs_are_one_pass();
}
