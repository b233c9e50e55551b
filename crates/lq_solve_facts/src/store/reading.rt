// Readings of predicates and instances: each is made where it isn't stored yet.
ghost use Rattle.std.specs.Prelude.{◌≡◌, IfOk, Some};
ghost use Rattle.lq_refined_instances.specs.Views.{list_view};
ghost use Rattle.lq_solve_facts.specs.Facts.Known.{Hold, IsReadOf, Keeps, readings_of};
ghost use Rattle.lq_refined_types.specs.Parts.Substitution.{formula_by};
ghost use Rattle.lq_logic_predicates.specs.Points.{Point};
ghost use Rattle.lq_logic_predicates.specs.PredView.{formula_of};
ghost use Rattle.lq_refined_substitution.specs.Substitution.Views.{subst_view};
ghost use Rattle.lq_solve_fixpoint.specs.Weakening.Chosen.{chosen_in};
ghost use Rattle.lq_solve_facts.specs.Store.Reads.{AreReads, StandUnder};
ghost use Rattle.lq_solve_facts.specs.Store.Store.{AreStored, Standing};

use crate::facts::{Known, ReadPred};
use crate::store::store::{PartPlace, Store};
use lq_logic_predicates::Pred;
use lq_refined_instances::InstanceList;
use lq_refined_substitution::substitution::{Subst, substitute};
use lq_solve_fixpoint::weakening::Chosen;
use std::alloc::AllocError;
use std::rc::Rc;

/// An instance of an unknown that was read, with something put for its symbols.
#[derive(Drop)]
pub(crate) struct ReadInstance {
    pub(crate) number: u64,
    pub(crate) read: Rc<ReadPred>,
}

/// Reads what stands at a place: of a goal its negation alone.
fn read_at(known: &mut Known, place: PartPlace, pred: &Pred) -> Result<Rc<ReadPred>, AllocError>
    ensures read { IfOk result (λ r. IsReadOf known.new r.value (formula_of pred.now)) }
    ensures kept { (p : Point) → Hold known.old p → Hold known.new p }
    ensures keeps { Keeps known.old known.new }
    ensures same { readings_of known.new ≡ readings_of known.old }
{
    match place {
        PartPlace::Goal(_) => known.read_goal(pred),
        PartPlace::Environment(_) | PartPlace::Left(_, _) => known.read(pred),
    }
}

/// Reads a predicate and stores the reading.
fn read_new(
    known: &mut Known,
    store: &mut Store,
    place: PartPlace,
    number: u64,
    pred: &Pred,
) -> Result<Rc<ReadPred>, AllocError>
    ensures read { IfOk result (λ r. IsReadOf known.new r.value (formula_of pred.now)) }
    ensures stored { (F : Standing) → AreStored F known.old store.old → F place number ≡ Some (formula_of pred.now)
        → AreStored F known.new store.new }
    ensures kept { (p : Point) → Hold known.old p → Hold known.new p }
    ensures keeps { Keeps known.old known.new }
    ensures same { readings_of known.new ≡ readings_of known.old }
{
    let read = read_at(known, place, pred)?;
    store.put(place, number, &read);
    Ok(read)
}

/// The reading of a known part.
pub(crate) fn read_known(
    known: &mut Known,
    store: &mut Store,
    place: PartPlace,
    pred: &Pred,
) -> Result<Rc<ReadPred>, AllocError>
    ensures read { IfOk result (λ r. (F : Standing) → AreStored F known.old store.old → F place 0 ≡ Some (formula_of pred.now)
        → IsReadOf known.new r.value (formula_of pred.now)) }
    ensures stored { (F : Standing) → AreStored F known.old store.old → F place 0 ≡ Some (formula_of pred.now)
        → AreStored F known.new store.new }
    ensures kept { (p : Point) → Hold known.old p → Hold known.new p }
    ensures keeps { Keeps known.old known.new }
    ensures same { readings_of known.new ≡ readings_of known.old }
{
    if let Some(read) = store.get(place, 0) {
        let shared = read.clone()?;
        return Ok(shared);
    }
    let read = read_new(known, store, place, 0, pred)?;
    Ok(read)
}

/// The reading of an instance, with something put for its symbols.
fn read_instance(
    known: &mut Known,
    store: &mut Store,
    place: PartPlace,
    number: u64,
    instance: &Pred,
    by: &Subst,
) -> Result<Rc<ReadPred>, AllocError>
    ensures read { IfOk result (λ r. (F : Standing) → AreStored F known.old store.old
        → F place number ≡ Some (formula_by (subst_view by.now) (formula_of instance.now))
        → IsReadOf known.new r.value (formula_by (subst_view by.now) (formula_of instance.now))) }
    ensures stored { (F : Standing) → AreStored F known.old store.old
        → F place number ≡ Some (formula_by (subst_view by.now) (formula_of instance.now)) → AreStored F known.new store.new }
    ensures kept { (p : Point) → Hold known.old p → Hold known.new p }
    ensures keeps { Keeps known.old known.new }
    ensures same { readings_of known.new ≡ readings_of known.old }
{
    if let Some(read) = store.get(place, number) {
        let shared = read.clone()?;
        return Ok(shared);
    }
    let made = substitute(store.alloc, instance, by)?;
    let read = read_new(known, store, place, number, &made)?;
    Ok(read)
}

/// The readings of the chosen ones of some instances, the last one first: the last ones speak of the nearest names, by which much of the
/// others follows.
pub(crate) fn read_chosen(
    known: &mut Known,
    store: &mut Store,
    place: PartPlace,
    unknown: u64,
    by: &Subst,
    list: &InstanceList,
    chosen: &Chosen,
) -> Result<Vec<ReadInstance>, AllocError>
    ensures reads { IfOk result (λ made. (F : Standing) → AreStored F known.old store.old
        → StandUnder F place (subst_view by.now) (list_view list.now)
        → AreReads known.new (chosen_in chosen.now unknown) (subst_view by.now) (list_view list.now) made.items) }
    ensures stored { (F : Standing) → AreStored F known.old store.old
        → StandUnder F place (subst_view by.now) (list_view list.now) → AreStored F known.new store.new }
    ensures kept { (p : Point) → Hold known.old p → Hold known.new p }
    ensures keeps { Keeps known.old known.new }
    ensures same { readings_of known.new ≡ readings_of known.old }
{
    let mut made = Vec::new(store.alloc);
    for at in (0..list.len()).rev() {
        let Some(instance) = list.get(at) else {
            unreachable!()
        };
        let number = at as u64;
        if !chosen.has(unknown, number) {
            continue;
        }
        let read = read_instance(known, store, place, number, instance, by)?;
        made.push(ReadInstance { number, read })?;
    }
    Ok(made)
}
