// A law of the definitions. Nothing is run.
ghost use Rattle.lq_top_app.specs.Once.{IsDetermined};

use lq_top_judge::judgement::one_judgement;
use lq_top_pose::one_posing;
use lq_top_words::inputs::one_fault;

/// Two statuses and reports that are due for some words are one, but for the values in the lines on a point, where no file is wanted or the
/// folder tells what it holds, unless the prover stopped for one of them.
pub fn one_report()
    ensures { IsDetermined }
{
    one_fault();
    one_posing();
    one_judgement();
}
