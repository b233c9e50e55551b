// What holds of the definitions. Nothing is run.
ghost use Rattle.lq_text_refusal.specs.Stages.{HasOneAnswer};
ghost use Rattle.lq_text_front.specs.Bytes.Stages.{BindsTo};

use crate::texts::one_resolution;
use lq_text_lexer::one_reading;
use lq_text_parser::parse::{one_answer, one_tree};

/// Three texts become one thing with their names bound, or are refused for one reason.
pub fn one_binding()
    ensures { HasOneAnswer BindsTo }
{
    one_reading();
    one_tree();
    one_answer();
    one_resolution();
}
