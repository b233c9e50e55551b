// Numbers of terms and classes of objects, read off a state.
ghost use Rattle.std.specs.Prelude.{◌≡◌, ◌<◌, ℕ, true, IfOk, length};
ghost use Rattle.lq_prover_case.specs.State.RowState.{is_solved, row_point};
ghost use Rattle.lq_prover_case.specs.Equations.Naming.{objects_of};
ghost use Rattle.lq_prover_case.specs.Equations.Values.{HasClasses};
ghost use Rattle.lq_logic_rows.specs.Steps.{valuation_of};
ghost use Rattle.lq_logic_predicates.specs.TableView.{terms_of};

use crate::equations::object_table::ObjectTable;
use crate::state::PathState;
use indexmap::IndexMap;
use lq_base_numbers::fractions::Frac;
use lq_logic_predicates::{Term, TermTable};
use std::alloc::{AllocError, Global};

/// A number for each term of a table.
pub fn term_values(
    alloc: Global,
    table: &TermTable,
    state: &PathState,
) -> Result<Vec<Frac>, AllocError>
    requires { is_solved state.now.rows ≡ true }
    ensures count { IfOk result (λ numbers. length numbers.items ≡ length (terms_of table.now)) }
    ensures each { IfOk result (λ numbers. (k : ℕ) → k < length (terms_of table.now)
        → valuation_of numbers.items k ≡ row_point state.now.rows k) }
{
    let mut numbers = Vec::new(alloc);
    for term in 0..table.len() {
        numbers.push(state.value(term))?;
    }
    Ok(numbers)
}

/// The class of each object.
pub fn object_classes(
    alloc: Global,
    objects: &ObjectTable,
    classes: &[u64],
) -> Result<IndexMap<Term, u64>, AllocError>
    requires { length classes.now ≡ length (objects_of objects.now) }
    ensures { IfOk result (λ made. HasClasses (objects_of objects.now) classes.now made.entries) }
{
    let mut made = IndexMap::new(alloc);
    for object in 0..objects.len() {
        let term = objects.object(object).copy(alloc)?;
        made.insert(term, classes[object])?;
    }
    Ok(made)
}
