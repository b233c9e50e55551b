// What holds of the definitions. Nothing is run.
ghost use Rattle.lq_text_refusal.specs.Stages.{HasOneAnswer};
ghost use Rattle.lq_top_pose.specs.Stages.{PosesTo};

use lq_sound_readiness::uniqueness::one_annotation;
use lq_text_front::bytes::one_binding;
use lq_types_rules::typings::one_inference;

/// For three texts one thing is to be solved, or they are refused for one reason.
pub fn one_posing()
    ensures { HasOneAnswer PosesTo }
{
    one_binding();
    one_inference();
    one_annotation();
}
