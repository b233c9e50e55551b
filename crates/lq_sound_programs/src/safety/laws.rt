// Laws of the definitions. Nothing is run.
ghost use Rattle.lq_sound_programs.specs.Safety.DataExample.{DataExampleHasAll, DataExampleIsSafe, IncompleteIsUnsafe};
ghost use Rattle.lq_sound_programs.specs.Safety.Example.{ExampleHasAll, ExampleIsSafe, UnguardedIsUnsafe};
ghost use Rattle.lq_sound_programs.specs.Safety.GeneralExample.{GeneralExampleHasAll, GeneralExampleIsSafe, MistakenIsUnsafe};
ghost use Rattle.lq_sound_programs.specs.Safety.Laws.{BlocksRun};
ghost use Rattle.lq_sound_programs.specs.Safety.Programs.{ChecksAreSafe};

use lq_logic_predicates::whole_numbers_are_a_point;
use lq_meaning_steps::model::{closing, closing_items, parts_step};
use lq_refined_rules::checks::simple_types_are_given;
use lq_refined_types::parts::{substitutions, truth_under_substitution};
use lq_refined_types::types::simple_types_are_kept;
use lq_sound_forms::arrays::arrays_run;
use lq_sound_forms::builds::builds_run;
use lq_sound_forms::calls::calls_run;
use lq_sound_forms::matches::matches_run;
use lq_sound_forms::pures::pures_run;
use lq_sound_forms::quotients::quotients_run;
use lq_sound_forms::tuples::tuples_run;
use lq_sound_values::inclusion::{like_types_fit, subtypes_fit};
use lq_sound_values::inhabitants::{inhabitants_stay, numbers_below};
use lq_sound_values::instantiation::{instances_fit, instances_stay};
use lq_sound_values::runs::forms_run;

/// A simply typed block that checks against a type runs to it, where what stands for type variables allows its uses: within any number of
/// steps it meets no fault and never lacks a step, and a value at its end inhabits the type.
pub fn blocks_run()
    ensures { BlocksRun }
{
    whole_numbers_are_a_point();
    truth_under_substitution();
    substitutions();
    parts_step();
    closing();
    inhabitants_stay();
    numbers_below();
    subtypes_fit();
    like_types_fit();
    simple_types_are_given();
    simple_types_are_kept();
    instances_fit();
    instances_stay();
    forms_run();
    pures_run();
    calls_run();
    arrays_run();
    quotients_run();
    tuples_run();
    builds_run();
    matches_run();
}

/// A simply typed program whose names are in scope and that checks under an assignment is safe, uses of generalised definitions included.
pub fn checks_are_safe()
    ensures { ChecksAreSafe }
{
    whole_numbers_are_a_point();
    truth_under_substitution();
    substitutions();
    parts_step();
    closing();
    closing_items();
    inhabitants_stay();
    numbers_below();
    subtypes_fit();
    like_types_fit();
    simple_types_are_given();
    simple_types_are_kept();
    instances_fit();
    instances_stay();
    forms_run();
    pures_run();
    calls_run();
    arrays_run();
    quotients_run();
    tuples_run();
    builds_run();
    matches_run();
}

/// A program meets every condition of the law, so is safe; without its `if` it isn't.
pub fn an_example_is_safe()
    ensures conditions { ExampleHasAll }
    ensures safe { ExampleIsSafe }
    ensures unguarded { UnguardedIsUnsafe }
{
    checks_are_safe();
}

/// So does one with a list whose size is measured, a tuple, and a match on each; a match without an arm for the value isn't safe.
pub fn data_example_is_safe()
    ensures conditions { DataExampleHasAll }
    ensures safe { DataExampleIsSafe }
    ensures incomplete { IncompleteIsUnsafe }
{
    checks_are_safe();
}

/// So does one with a definition of a general type that is used at two instances of it; one that takes what it gives of a number as a
/// condition isn't safe.
pub fn general_example_is_safe()
    ensures conditions { GeneralExampleHasAll }
    ensures safe { GeneralExampleIsSafe }
    ensures mistaken { MistakenIsUnsafe }
{
    checks_are_safe();
}
