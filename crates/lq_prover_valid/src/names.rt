// The objects of an implication by their numbers.
ghost use Rattle.std.specs.Prelude.{◌≡◌, ◌<◌, IfOk, Some, length, map, slice_get};
ghost use Rattle.lq_prover_case.specs.Equations.Naming.{HasAllArguments, Keeps, objects_of};
ghost use Rattle.lq_logic_predicates.specs.TableView.{terms_of};
ghost use Rattle.lq_logic_predicates.specs.TermView.{sum_of};

use indexmap::IndexSet;
use lq_logic_predicates::{Term, TermTable};
use lq_prover_case::equations::{ObjectTable, add_arguments};
use std::alloc::{AllocError, Global};

/// The object at a place.
fn named_at(named: &IndexSet<Term>, at: usize) -> &Term
    requires { at < length named.now.keys }
    ensures { slice_get (map sum_of named.now.keys) at ≡ Some (sum_of result.now) }
{
    &named[at]
}

/// Those of which terms are lengths or measures, and the named ones.
pub fn object_table(
    alloc: Global,
    named: &IndexSet<Term>,
    table: &TermTable,
) -> Result<ObjectTable, AllocError>
    ensures arguments { IfOk result (λ objects. HasAllArguments (objects_of objects) (terms_of table.now)) }
    ensures named { IfOk result (λ objects. Keeps (map sum_of named.now.keys) (objects_of objects)) }
{
    let mut objects = ObjectTable::new(alloc);
    add_arguments(alloc, table, &mut objects)?;
    for at in 0..named.len() {
        objects.add(alloc, named_at(named, at))?;
    }
    Ok(objects)
}
