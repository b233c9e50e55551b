// The instances of a goal that a point refutes.
ghost use Rattle.std.specs.Prelude.{◌≡◌, ◌↔◌, ◌<◌, true, false, length, slice_get, Some, IsTrue, IfOk, OnOk};
ghost use Rattle.lq_refined_instances.specs.Views.{list_view};
ghost use Rattle.lq_refined_types.specs.Parts.Refuting.{IsRefuted};
ghost use Rattle.lq_refined_types.specs.Parts.Substitution.{formula_by};
ghost use Rattle.lq_logic_points.specs.Values.{as_point, table_of, values_of};
ghost use Rattle.lq_logic_predicates.specs.Formula.{Formula};
ghost use Rattle.lq_logic_predicates.specs.Points.{Meets};
ghost use Rattle.lq_logic_predicates.specs.PredView.{formula_of};
ghost use Rattle.lq_logic_predicates.specs.Reading.{reading_of};
ghost use Rattle.lq_logic_predicates.specs.TableView.{terms_of};
ghost use Rattle.lq_refined_substitution.specs.Substitution.Views.{subst_view};
ghost use Rattle.lq_solve_fixpoint.specs.Weakening.Chosen.{chosen_in};
ghost use Rattle.lq_solve_fixpoint.specs.Weakening.Judging.{AreRefuted};
ghost use Rattle.lq_solve_strongest.specs.Weaken.Refuting.{AreAskable, IsAskable};

use lq_logic_points::{Point, gathered_readings_can_be_evaluated, holds};
use lq_logic_predicates::{GatherError, Pred, TermTable, tighten};
use lq_refined_instances::InstanceList;
use lq_refined_substitution::substitution::{Subst, substitute};
use lq_solve_fixpoint::weakening::Chosen;
use std::alloc::{AllocError, Global};

/// Whether the negated reading of a predicate is met at a point, whose terms the table has.
fn is_against(
    alloc: Global,
    pred: &Pred,
    point: &Point,
    table: &mut TermTable,
) -> Result<bool, AllocError>
    requires table { terms_of table.old ≡ table_of (values_of point.now) }
    requires askable { IsAskable point.now (formula_of pred.now) }
    ensures same { OnOk result (terms_of table.new ≡ terms_of table.old) }
    ensures met { IfOk result (λ b. IsTrue b ↔ Meets (as_point point.now) (reading_of false (formula_of pred.now))) }
{
    gathered_readings_can_be_evaluated();
    let _count = table.len();
    match tighten(alloc, pred, false, table) {
        Ok(reading) => Ok(holds(point, &reading)),
        Err(GatherError::Memory) => Err(AllocError),
        Err(GatherError::Past) => unreachable!(),
    }
}

/// Whether an instance of a list, with something put for its symbols, is refuted at a point.
fn is_refuted(
    alloc: Global,
    list: &InstanceList,
    at: u64,
    by: &Subst,
    point: &Point,
    table: &mut TermTable,
) -> Result<bool, AllocError>
    requires there { at < length (list_view list.now) }
    requires table { terms_of table.old ≡ table_of (values_of point.now) }
    requires askable { (q : Formula) → slice_get (list_view list.now) at ≡ Some q
        → IsAskable point.now (formula_by (subst_view by.now) q) }
    ensures same { OnOk result (terms_of table.new ≡ terms_of table.old) }
    ensures refuted { IfOk result (λ b. IsTrue b
        ↔ IsRefuted (as_point point.now) (subst_view by.now) (list_view list.now) at) }
{
    let Some(instance) = list.get(at as usize) else {
        unreachable!()
    };
    let pred = substitute(alloc, instance, by)?;
    is_against(alloc, &pred, point, table)
}

/// Whether an instance of an unknown is chosen and, with something put for its symbols, refuted at a point.
fn goes(
    alloc: Global,
    unknown: u64,
    by: &Subst,
    list: &InstanceList,
    at: u64,
    chosen: &Chosen,
    point: &Point,
    table: &mut TermTable,
) -> Result<bool, AllocError>
    requires there { at < length (list_view list.now) }
    requires table { terms_of table.old ≡ table_of (values_of point.now) }
    requires askable { AreAskable point.now (chosen_in chosen.now unknown) (subst_view by.now) (list_view list.now) }
    ensures same { OnOk result (terms_of table.new ≡ terms_of table.old) }
    ensures goes { IfOk result (λ b. IsTrue b ↔ ((chosen_in chosen.now unknown at ≡ true)
        × IsRefuted (as_point point.now) (subst_view by.now) (list_view list.now) at)) }
{
    let is_chosen = chosen.has(unknown, at);
    if is_chosen {
        return is_refuted(alloc, list, at, by, point, table);
    }
    Ok(false)
}

/// The chosen instances of an unknown that are refuted at a point, whose terms the table has.
pub(crate) fn refuted(
    alloc: Global,
    unknown: u64,
    by: &Subst,
    list: &InstanceList,
    chosen: &Chosen,
    point: &Point,
    table: &mut TermTable,
) -> Result<Vec<u64>, AllocError>
    requires table { terms_of table.old ≡ table_of (values_of point.now) }
    requires askable { AreAskable point.now (chosen_in chosen.now unknown) (subst_view by.now) (list_view list.now) }
    ensures { IfOk result (λ numbers. AreRefuted (chosen_in chosen.now unknown) (as_point point.now)
        (subst_view by.now) (list_view list.now) numbers.items) }
{
    let mut numbers = Vec::new(alloc);
    for at in 0..list.len() as u64 {
        let goes = goes(alloc, unknown, by, list, at, chosen, point, table)?;
        if goes {
            numbers.push(at)?;
        }
    }
    Ok(numbers)
}
