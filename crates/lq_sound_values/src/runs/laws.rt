// Laws of the definitions. Nothing is run.
ghost use Rattle.lq_sound_values.specs.Runs.Forms.{AssertRuns, CallRuns, FunctionRuns, IfRuns, LetRuns, PrintRuns, ReadRuns, RecursionRuns, RecursiveValuesFit, SubtypeRuns};

use crate::inclusion::{like_types_fit, subtypes_fit};
use crate::inhabitants::{inhabitants_stay, numbers_below};
use lq_logic_predicates::whole_numbers_are_a_point;
use lq_meaning_steps::model::{closing, parts_step};
use lq_refined_types::parts::{substitutions, truth_under_substitution};

/// Each of these forms runs well where its parts do, with names that are good for one step more than what runs.
pub fn forms_run()
    ensures subtypes { SubtypeRuns }
    ensures lets { LetRuns }
    ensures reads { ReadRuns }
    ensures ifs { IfRuns }
    ensures asserts { AssertRuns }
    ensures prints { PrintRuns }
    ensures functions { FunctionRuns }
    ensures recursions { RecursionRuns }
    ensures values { RecursiveValuesFit }
    ensures calls { CallRuns }
{
    whole_numbers_are_a_point();
    truth_under_substitution();
    substitutions();
    parts_step();
    closing();
    inhabitants_stay();
    numbers_below();
    subtypes_fit();
    like_types_fit();
}
