// The objects of which terms are lengths or measures.
ghost use Rattle.std.specs.Prelude.{OnOk};
ghost use Rattle.lq_prover_case.specs.Equations.Naming.{HasAllArguments, HasArgument, Keeps, objects_of};
ghost use Rattle.lq_logic_predicates.specs.TableView.{terms_of};
ghost use Rattle.lq_logic_predicates.specs.TermView.{sum_of};

use crate::equations::object_table::ObjectTable;
use lq_logic_predicates::{Term, TermTable};
use std::alloc::{AllocError, Global};

/// Adds the object of which a term is the length or a measure.
fn add_argument(alloc: Global, term: &Term, objects: &mut ObjectTable) -> Result<(), AllocError>
    ensures keeps { Keeps (objects_of objects.old) (objects_of objects.new) }
    ensures has { OnOk result (HasArgument (objects_of objects.new) (sum_of term.now)) }
{
    match term {
        Term::Length(object) | Term::Measure(_, object) => objects.add(alloc, object),
        _ => Ok(()),
    }
}

/// Adds the objects of which terms are lengths or measures.
#[tactic(auto, using(crate::proofs::EquationsLemmas::Sides::keeping))]
pub fn add_arguments(
    alloc: Global,
    table: &TermTable,
    objects: &mut ObjectTable,
) -> Result<(), AllocError>
    ensures keeps { Keeps (objects_of objects.old) (objects_of objects.new) }
    ensures has { OnOk result (HasAllArguments (objects_of objects.new) (terms_of table.now)) }
{
    for at in 0..table.len() {
        add_argument(alloc, table.term(at), objects)?;
    }
    Ok(())
}
