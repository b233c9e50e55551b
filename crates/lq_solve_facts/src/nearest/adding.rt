// What parts stand for becomes known.
ghost use Rattle.std.specs.Prelude.{◌≡◌, IfOk, IsTrue, OnOk, map, true};
ghost use Rattle.lq_refined_substitution.specs.Implications.Views.{hypotheses_left};
ghost use Rattle.lq_refined_instances.specs.Views.{list_view};
ghost use Rattle.lq_solve_facts.specs.Facts.Known.{Hold, Keeps, readings_of};
ghost use Rattle.lq_solve_facts.specs.Facts.Plain.{IsPlain};
ghost use Rattle.lq_solve_facts.specs.Facts.Values.{MeetsEachRow};
ghost use Rattle.lq_logic_rows.specs.Row.{Valuation};
ghost use Rattle.lq_refined_types.specs.Parts.Assignment.{part_under, parts_under};
ghost use Rattle.lq_refined_types.specs.Parts.Flowing.{picked};
ghost use Rattle.lq_refined_types.specs.Parts.Substitution.{formula_by};
ghost use Rattle.lq_logic_predicates.specs.ClosedImplication.{MeetsEach};
ghost use Rattle.lq_logic_predicates.specs.PredView.{formula_of};
ghost use Rattle.lq_logic_predicates.specs.Points.{Meets, Point};
ghost use Rattle.lq_logic_predicates.specs.Reading.{reading_of};
ghost use Rattle.lq_logic_predicates.specs.RowMeaning.{AgreesOn};
ghost use Rattle.lq_logic_predicates.specs.TableView.{terms_of};
ghost use Rattle.lq_solve_fixpoint.specs.Questions.Assigned.{assignment_of};
ghost use Rattle.lq_refined_substitution.specs.Substitution.Views.{part_view, subst_view};
ghost use Rattle.lq_solve_fixpoint.specs.Weakening.Chosen.{chosen_in};
ghost use Rattle.lq_solve_facts.specs.Nearest.Reading.{AreRead};

use crate::facts::Known;
use lq_logic_predicates::Pred;
use lq_refined_instances::{InstanceList, Instances};
use lq_refined_substitution::implications::Hypotheses;
use lq_refined_substitution::substitution::{Part, Subst, substitute};
use lq_solve_fixpoint::weakening::Chosen;
use std::alloc::{AllocError, Global};

/// Adds what is known of an instance with something put for its symbols, where it is chosen.
fn add_instance(
    alloc: Global,
    known: &mut Known,
    instance: &Pred,
    is_chosen: bool,
    by: &Subst,
) -> Result<(), AllocError>
    ensures held { OnOk result ((p : Point) → Hold known.old p
        → (is_chosen ≡ true → Meets p (reading_of true (formula_by (subst_view by.now) (formula_of instance.now))))
        → Hold known.new p) }
    ensures keeps { Keeps known.old known.new }
    ensures read { OnOk result ((v : Valuation) (p : Point) → AgreesOn (terms_of known.new.table) v p
        → MeetsEachRow v p (readings_of known.new) → MeetsEachRow v p (readings_of known.old)
        × (is_chosen ≡ true → Meets p (reading_of true (formula_by (subst_view by.now) (formula_of instance.now)))
        × IsPlain (formula_by (subst_view by.now) (formula_of instance.now)))) }
{
    if !is_chosen {
        return Ok(());
    }
    let made = substitute(alloc, instance, by)?;
    known.add(&made)?;
    Ok(())
}

/// Adds what is known of the chosen ones of some instances, the last one first: the last ones speak of the nearest names, by which much of
/// the others follows.
fn add_list(
    alloc: Global,
    known: &mut Known,
    unknown: u64,
    by: &Subst,
    list: &InstanceList,
    chosen: &Chosen,
) -> Result<(), AllocError>
    ensures held { OnOk result ((p : Point) → Hold known.old p → MeetsEach p (map (formula_by (subst_view by.now))
        (picked (chosen_in chosen.now unknown) 0 (list_view list.now))) → Hold known.new p) }
    ensures keeps { Keeps known.old known.new }
    ensures read { OnOk result (AreRead known.old known.new (map (formula_by (subst_view by.now))
        (picked (chosen_in chosen.now unknown) 0 (list_view list.now)))) }
{
    for at in (0..list.len()).rev() {
        let Some(instance) = list.get(at) else {
            unreachable!()
        };
        add_instance(alloc, known, instance, chosen.has(unknown, at as u64), by)?;
    }
    Ok(())
}

/// Adds what is known of a part as a hypothesis.
pub fn add_part(
    alloc: Global,
    known: &mut Known,
    part: &Part,
    instances: &Instances,
    chosen: &Chosen,
) -> Result<(), AllocError>
    ensures held { OnOk result ((p : Point) → Hold known.old p
        → MeetsEach p (part_under (assignment_of instances.now chosen.now) (part_view part.now)) → Hold known.new p) }
    ensures keeps { Keeps known.old known.new }
    ensures read { OnOk result (AreRead known.old known.new
        (part_under (assignment_of instances.now chosen.now) (part_view part.now))) }
{
    match part {
        Part::Known(pred) => {
            known.add(pred)?;
            Ok(())
        }
        Part::Unknown(unknown, by) => match instances.get(*unknown as usize) {
            Some(list) => add_list(alloc, known, *unknown, by, list, chosen),
            None => Ok(()),
        },
    }
}

/// Adds what is known of so many of the last hypotheses. The answer is whether there were as many.
pub(crate) fn add_last(
    alloc: Global,
    known: &mut Known,
    left: &mut Hypotheses<'_>,
    count: u64,
    instances: &Instances,
    chosen: &Chosen,
) -> Result<bool, AllocError>
    ensures holds { OnOk result ((p : Point) → Hold known.old p
        → MeetsEach p (parts_under (assignment_of instances.now chosen.now) (hypotheses_left left.old)) → Hold known.new p) }
    ensures less { IfOk result (λ more. IsTrue more → (p : Point)
        → MeetsEach p (parts_under (assignment_of instances.now chosen.now) (hypotheses_left left.old))
        → MeetsEach p (parts_under (assignment_of instances.now chosen.now) (hypotheses_left left.new))) }
{
    for _ in 0..count {
        let Some(part) = left.take_last() else {
            return Ok(false);
        };
        add_part(alloc, known, part, instances, chosen)?;
    }
    Ok(true)
}
