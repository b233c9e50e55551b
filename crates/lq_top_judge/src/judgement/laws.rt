// What holds of the definitions. Nothing is run.
ghost use Rattle.lq_top_judge.specs.Judgement.Agreeing.{IsOneJudgement};
ghost use Rattle.lq_top_judge.specs.Judgement.Safety.{AcceptedAreSafe, SmallAreDecided};

use lq_generate_reading::notes::noted_are_known;
use lq_prover_proof_tree::literals::sources_have_the_literals;
use lq_solve_strongest::weaken::some_instances_gather;
use lq_sound_texts::instances::{instances_are_sorted, qualifiers_are_sorted};
use lq_sound_texts::texts::texts_are_safe;
use lq_sound_texts::typed_texts::instances_are_scoped;
use lq_sound_texts::variance::named_programs_are_covariant;
use lq_top_answers::failure::failures_differ_in_values;
use lq_top_pose::one_posing;

/// Two judgements on three texts that are due agree, but for the values in the lines on a point, unless the prover stopped for one of them.
pub fn one_judgement()
    ensures { IsOneJudgement }
{
    one_posing();
    sources_have_the_literals();
    some_instances_gather();
    failures_differ_in_values();
}

/// What is accepted is safe by the meaning of the language: on every input no number of steps meets a fault or gets stuck.
pub fn accepted_are_safe()
    ensures { AcceptedAreSafe }
{
    noted_are_known();
    instances_are_scoped();
    texts_are_safe();
    qualifiers_are_sorted();
    instances_are_sorted();
    named_programs_are_covariant();
}

/// Where each implication, with all instances in place, is of differences and its constants small, or its sizes are small and the limit on
/// pivots is enough, the prover stops on none.
pub fn small_are_decided()
    ensures { SmallAreDecided }
{}
