// Laws of uses of generalised names. Nothing is run.
ghost use Rattle.lq_sound_scope.specs.GeneralUses.Laws.{NormalFormsUseBefore, NotedProgramsUseBefore, NotedTextsUseBefore, ReadProgramsUseBefore};

use lq_meaning_normal_form::types::{made_names_run, scoped_programs_are_plain};
use lq_meaning_normalize::normalize::programs_are_one_pass;
use lq_sound_readiness::normal_texts::parsed_programs_are_written;

/// In a typed program a name that is used at types for its type's variables is one that an earlier item defined.
pub fn noted_programs_use_before()
    ensures { NotedProgramsUseBefore }
{}

/// So it is in the normal form of a plain program in which it is so.
pub fn normal_forms_use_before()
    ensures { NormalFormsUseBefore }
{
    made_names_run();
}

/// So it is in what is read of a program in which it is so.
pub fn read_programs_use_before()
    ensures { ReadProgramsUseBefore }
{}

/// So it is in what is read of the normal form of a typed program of a text.
pub fn noted_texts_use_before()
    ensures { NotedTextsUseBefore }
{
    noted_programs_use_before();
    normal_forms_use_before();
    read_programs_use_before();
    parsed_programs_are_written();
    scoped_programs_are_plain();
    programs_are_one_pass();
}
