// Laws of programs. Nothing is run.
ghost use Rattle.lq_sound_readiness.specs.Programs.Laws.{NormalProgramsAreReady, TypedProgramsAreReady, TypedTextsAreReady};

use crate::binders::binders_of_normal_forms_differ;
use crate::normal_reading::normal_forms_can_be_read;
use crate::normal_texts::parsed_programs_are_written;
use crate::reading::what_is_read_is_typed;
use crate::typed_texts::{texts_have_flat_patterns, typed_programs_suit};
use lq_meaning_normal_form::types::{programs_keep_given_types, scoped_programs_are_plain};
use lq_refined_rules::checks::typed_is_ready;
use lq_refined_templates::points::templates_are_of_points;

/// What is read of a program in normal form that obeys the rules of types, and whose uses fit, is ready where its binders differ.
pub fn normal_programs_are_ready()
    ensures { NormalProgramsAreReady }
{
    what_is_read_is_typed();
    templates_are_of_points();
    typed_is_ready();
}

/// So is what is read of the normal form of a scoped program with trees and patterns of texts, which obeys the rules of types.
pub fn typed_programs_are_ready()
    ensures { TypedProgramsAreReady }
{
    normal_programs_are_ready();
    scoped_programs_are_plain();
    programs_keep_given_types();
    typed_programs_suit();
    normal_forms_can_be_read();
    binders_of_normal_forms_differ();
}

/// So is that of a program that a text is, once its names are bound.
pub fn typed_texts_are_ready()
    ensures { TypedTextsAreReady }
{
    typed_programs_are_ready();
    parsed_programs_are_written();
    texts_have_flat_patterns();
}
