// Objects by their numbers.
ghost use Rattle.std.specs.Prelude.{◌≡◌, true, Some, map, slice_get};
ghost use Rattle.lq_logic_predicates.specs.Table.{has_term};
ghost use Rattle.lq_logic_predicates.specs.TermView.{sum_of};

use indexmap::IndexSet;
use lq_logic_predicates::Term;

/// The number of an object: its place among all.
pub(crate) fn number_of(objects: &IndexSet<Term>, object: &Term) -> u64
    requires { has_term (map sum_of objects.now.keys) (sum_of object.now) ≡ true }
    ensures { slice_get (map sum_of objects.now.keys) result ≡ Some (sum_of object.now) }
{
    match objects.get_index_of(object) {
        Some(at) => at as u64,
        None => unreachable!(),
    }
}
