// Laws of the definitions. Nothing is run.
ghost use Rattle.lq_sound_adequacy.specs.Implications.Laws.{ImplicationsAreSorted, PredicatesAreSorted};

use crate::obligations::obligations_are_sorted;
use crate::subtypings::obligations_are_bound;
use lq_refined_rules::obligations::{obligations_are_implications, obligations_are_shaped};
use lq_sound_scope::sorts::parts_are_sorted;
use lq_sound_scope::splits::hypotheses_are_over;

/// Each implication of a program is well sorted over the names that its environment binds, and v.
pub fn implications_are_sorted()
    ensures { ImplicationsAreSorted }
{
    hypotheses_are_over();
    obligations_are_bound();
    obligations_are_implications();
    obligations_are_shaped();
    obligations_are_sorted();
}

/// Under well sorted instances each predicate of a well sorted implication is well sorted.
pub fn predicates_are_sorted()
    ensures { PredicatesAreSorted }
{
    parts_are_sorted();
}
