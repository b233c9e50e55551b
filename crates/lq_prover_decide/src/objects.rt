// The objects of which a case speaks.
ghost use Rattle.std.specs.Prelude.{IfOk, OnOk, map};
ghost use Rattle.lq_prover_decide.specs.Case.{fact_of};
ghost use Rattle.lq_prover_case.specs.Equations.Naming.{HasAllArguments, HasAllSides, HasSides, Keeps, objects_of};
ghost use Rattle.lq_logic_predicates.specs.TableView.{terms_of};

use crate::fact::Fact;
use lq_logic_predicates::TermTable;
use lq_prover_case::equations::{ObjectTable, add_arguments};
use std::alloc::{AllocError, Global};

/// Adds the objects of a literal.
fn add_sides(alloc: Global, fact: &Fact, objects: &mut ObjectTable) -> Result<(), AllocError>
    ensures keeps { OnOk result (Keeps (objects_of objects.old) (objects_of objects.new)) }
    ensures has { OnOk result (HasSides (objects_of objects.new) (fact_of fact.now)) }
{
    match fact {
        Fact::Row(_) | Fact::Flag(_, _) => Ok(()),
        Fact::Same(left, right, _) => {
            objects.add(alloc, left)?;
            objects.add(alloc, right)
        }
    }
}

/// The objects of literals.
fn sides_of(alloc: Global, facts: &[Fact]) -> Result<ObjectTable, AllocError>
    ensures { IfOk result (λ objects. HasAllSides (objects_of objects) (map fact_of facts.now)) }
{
    let mut objects = ObjectTable::new(alloc);
    for fact in facts {
        add_sides(alloc, fact, &mut objects)?;
    }
    Ok(objects)
}

/// The objects of literals, and those of which terms are lengths or measures.
pub(crate) fn case_objects(
    alloc: Global,
    facts: &[Fact],
    table: &TermTable,
) -> Result<ObjectTable, AllocError>
    ensures sides { IfOk result (λ objects. HasAllSides (objects_of objects) (map fact_of facts.now)) }
    ensures arguments { IfOk result (λ objects. HasAllArguments (objects_of objects) (terms_of table.now)) }
{
    let mut objects = sides_of(alloc, facts)?;
    add_arguments(alloc, table, &mut objects)?;
    Ok(objects)
}
