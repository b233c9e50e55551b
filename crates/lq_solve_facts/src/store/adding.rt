// What parts stand for becomes known, by readings.
ghost use Rattle.std.specs.Prelude.{ℕ, Bool, List, OnOk, map};
ghost use Rattle.lq_solve_facts.specs.Facts.Known.{Hold, Keeps};
ghost use Rattle.lq_solve_facts.specs.Nearest.Reading.{AreRead};
ghost use Rattle.lq_refined_types.specs.Parts.Assignment.{part_under};
ghost use Rattle.lq_refined_types.specs.Parts.Flowing.{picked};
ghost use Rattle.lq_refined_types.specs.Parts.Substitution.{Subst as Swaps, formula_by};
ghost use Rattle.lq_logic_predicates.specs.ClosedImplication.{MeetsEach};
ghost use Rattle.lq_logic_predicates.specs.Formula.{Formula};
ghost use Rattle.lq_logic_predicates.specs.Points.{Point};
ghost use Rattle.lq_solve_fixpoint.specs.Questions.Assigned.{assignment_of, instances_in};
ghost use Rattle.lq_refined_substitution.specs.Substitution.Views.{part_view};
ghost use Rattle.lq_solve_facts.specs.Store.Places.{StandsAt};
ghost use Rattle.lq_solve_facts.specs.Store.Reads.{AreReads};
ghost use Rattle.lq_solve_facts.specs.Store.Store.{AreStored, Standing};

use crate::facts::Known;
use crate::store::reading::{ReadInstance, read_chosen, read_known};
use crate::store::store::{PartPlace, Store};
use lq_refined_instances::Instances;
use lq_refined_substitution::substitution::Part;
use lq_solve_fixpoint::weakening::Chosen;
use std::alloc::AllocError;

/// Adds what is known of the chosen ones of some instances.
fn add_each(known: &mut Known, reads: &[ReadInstance]) -> Result<(), AllocError>
    ensures held { OnOk result ((chosen : ℕ → Bool) (by : Swaps) (instances : List Formula)
        → AreReads known.old chosen by instances reads.now → (p : Point) → Hold known.old p
        → MeetsEach p (map (formula_by by) (picked chosen 0 instances)) → Hold known.new p) }
    ensures keeps { Keeps known.old known.new }
    ensures read { OnOk result ((chosen : ℕ → Bool) (by : Swaps) (instances : List Formula)
        → AreReads known.old chosen by instances reads.now
        → AreRead known.old known.new (map (formula_by by) (picked chosen 0 instances))) }
{
    for instance in reads {
        known.add_read(&instance.read)?;
    }
    Ok(())
}

/// Adds what is known of a part as a hypothesis.
pub(crate) fn add_part(
    known: &mut Known,
    store: &mut Store,
    place: PartPlace,
    part: &Part,
    instances: &Instances,
    chosen: &Chosen,
) -> Result<(), AllocError>
    ensures held { OnOk result ((F : Standing) → AreStored F known.old store.old
        → StandsAt F (instances_in instances.now) place (part_view part.now) → (p : Point) → Hold known.old p
        → MeetsEach p (part_under (assignment_of instances.now chosen.now) (part_view part.now)) → Hold known.new p) }
    ensures keeps { Keeps known.old known.new }
    ensures read { OnOk result ((F : Standing) → AreStored F known.old store.old
        → StandsAt F (instances_in instances.now) place (part_view part.now)
        → AreRead known.old known.new (part_under (assignment_of instances.now chosen.now) (part_view part.now))) }
    ensures stored { (F : Standing) → AreStored F known.old store.old
        → StandsAt F (instances_in instances.now) place (part_view part.now) → AreStored F known.new store.new }
{
    match part {
        Part::Known(pred) => {
            let read = read_known(known, store, place, pred)?;
            known.add_read(&read)?;
            Ok(())
        }
        Part::Unknown(unknown, by) => match instances.get(*unknown as usize) {
            Some(list) => {
                let reads = read_chosen(known, store, place, *unknown, by, list, chosen)?;
                add_each(known, reads.as_slice())?;
                Ok(())
            }
            None => Ok(()),
        },
    }
}
