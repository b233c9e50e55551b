// Laws of the definitions. Nothing is run.
ghost use Rattle.lq_sound_adequacy.specs.Obligations.Laws.{ObligationsAreSorted};

use lq_refined_rules::checks::simple_types_are_given;

/// In the environment of each obligation each name has the sort of its type, and all that is known and asked there is well sorted.
pub fn obligations_are_sorted()
    ensures { ObligationsAreSorted }
{
    simple_types_are_given();
}
