// The hypotheses of a left type.
ghost use Rattle.std.specs.Prelude.{OnOk, map};
ghost use Rattle.lq_solve_facts.specs.Facts.Known.{Hold, Keeps};
ghost use Rattle.lq_solve_facts.specs.Nearest.Reading.{AreRead};
ghost use Rattle.lq_refined_types.specs.Parts.Assignment.{parts_under};
ghost use Rattle.lq_logic_predicates.specs.ClosedImplication.{MeetsEach};
ghost use Rattle.lq_logic_predicates.specs.Points.{Point};
ghost use Rattle.lq_solve_fixpoint.specs.Questions.Assigned.{assignment_of, instances_in};
ghost use Rattle.lq_refined_substitution.specs.Substitution.Views.{part_view};
ghost use Rattle.lq_solve_facts.specs.Store.Places.{StandAtLeft};
ghost use Rattle.lq_solve_facts.specs.Store.Store.{AreStored, Standing};

use crate::facts::Known;
use crate::store::adding::add_part;
use crate::store::store::{PartPlace, Store};
use lq_refined_instances::Instances;
use lq_refined_substitution::substitution::Part;
use lq_solve_fixpoint::weakening::Chosen;
use std::alloc::AllocError;

/// Adds what is known of the hypotheses of an implication's left type.
pub(crate) fn add_parts(
    known: &mut Known,
    store: &mut Store,
    implication: u64,
    parts: &[Part],
    instances: &Instances,
    chosen: &Chosen,
) -> Result<(), AllocError>
    ensures held { OnOk result ((F : Standing) → AreStored F known.old store.old
        → StandAtLeft F (instances_in instances.now) implication (map part_view parts.now) → (p : Point) → Hold known.old p
        → MeetsEach p (parts_under (assignment_of instances.now chosen.now) (map part_view parts.now)) → Hold known.new p) }
    ensures read { OnOk result ((F : Standing) → AreStored F known.old store.old
        → StandAtLeft F (instances_in instances.now) implication (map part_view parts.now)
        → AreRead known.old known.new (parts_under (assignment_of instances.now chosen.now) (map part_view parts.now))) }
    ensures stored { (F : Standing) → AreStored F known.old store.old
        → StandAtLeft F (instances_in instances.now) implication (map part_view parts.now) → AreStored F known.new store.new }
    ensures keeps { Keeps known.old known.new }
{
    let mut behind = parts.len() as u64;
    for part in parts {
        behind -= 1;
        add_part(
            known,
            store,
            PartPlace::Left(implication, behind),
            part,
            instances,
            chosen,
        )?;
    }
    Ok(())
}
