// How what is known stands to a goal.
ghost use Rattle.std.specs.Prelude.{◌≡◌, IfOk, IsTrue, false};
ghost use Rattle.lq_solve_facts.specs.Facts.Known.{Hold, IsReadOf, IsSettled, Keeps, readings_of};
ghost use Rattle.lq_solve_facts.specs.declared.facts.standing.Stand.TheVariants.{Proved, Settled};
ghost use Rattle.lq_refined_types.specs.Parts.Assignment.{goal_under};
ghost use Rattle.lq_logic_predicates.specs.Formula.{Formula};
ghost use Rattle.lq_logic_predicates.specs.Points.{Meets, Point};
ghost use Rattle.lq_logic_predicates.specs.Reading.{reading_of};
ghost use Rattle.lq_solve_fixpoint.specs.Questions.Assigned.{assignment_of, instances_in};
ghost use Rattle.lq_refined_substitution.specs.Substitution.Views.{part_view};
ghost use Rattle.lq_solve_fixpoint.specs.Weakening.Chosen.{chosen_in};
ghost use Rattle.lq_solve_facts.specs.Store.Answer.{IfHolds, IfRefuted};
ghost use Rattle.lq_solve_facts.specs.Store.Aiming.{AreProvedBy, AreRefutableBy, IsGoalRefuted};
ghost use Rattle.lq_solve_facts.specs.Store.Places.{StandsAt};
ghost use Rattle.lq_solve_facts.specs.Store.Store.{AreStored, Standing};

use crate::facts::{Known, ReadPred, Stand};
use crate::store::answer::Answer;
use crate::store::reading::{ReadInstance, read_chosen, read_known};
use crate::store::refuting::refute;
use crate::store::store::{PartPlace, Store};
use lq_refined_instances::Instances;
use lq_refined_substitution::substitution::Part;
use lq_solve_fixpoint::weakening::Chosen;
use std::alloc::{AllocError, Global};
use std::rc::Rc;

/// Whether each chosen one of some instances is proved: mostly facts clash with its negation as they are taken.
fn proves_each(known: &mut Known, reads: &[ReadInstance]) -> bool
    ensures proved { IsTrue result → AreProvedBy known.old reads.now }
    ensures kept { (p : Point) → Hold known.old p → Hold known.new p }
    ensures keeps { Keeps known.old known.new }
    ensures same { readings_of known.new ≡ readings_of known.old }
{
    for instance in reads {
        if !known.proves_read(&instance.read) {
            return false;
        }
    }
    true
}

/// How the chosen ones of some instances stand to the facts: proved where each is, and else as the first one of which this isn't known.
fn stand_against_each(known: &mut Known, reads: &[ReadInstance]) -> Stand
    ensures proved { result ≡ Proved → AreProvedBy known.old reads.now }
    ensures settled { result ≡ Settled → IsSettled known.new }
    ensures keeps { Keeps known.old known.new }
    ensures readings { readings_of known.new ≡ readings_of known.old }
{
    for instance in reads {
        let stand = known.stand_against_read(&instance.read);
        match stand {
            Stand::Proved => {}
            Stand::Settled | Stand::Unknown => return stand,
        }
    }
    Stand::Proved
}

/// What is known of the conjunction of the chosen instances, one after the other.
fn aim_at_each(
    alloc: Global,
    known: &mut Known,
    reads: &[ReadInstance],
) -> Result<Answer, AllocError>
    ensures holds { IfOk result (λ a. IfHolds a (AreProvedBy known.old reads.now)) }
    ensures refuted { IfOk result (λ a. IfRefuted a (AreRefutableBy known.old reads.now)) }
    ensures keeps { Keeps known.old known.new }
{
    match stand_against_each(known, reads) {
        Stand::Proved => Ok(Answer::Holds),
        Stand::Settled => refute(alloc, known, reads),
        Stand::Unknown => Ok(Answer::Open),
    }
}

/// What the values that solve the facts alone say of the conjunction of the chosen instances: mostly they refute what is refutable, and no
/// negation has to be taken.
fn aim_at_once(
    alloc: Global,
    known: &mut Known,
    reads: &[ReadInstance],
) -> Result<Answer, AllocError>
    ensures holds { IfOk result (λ a. IfHolds a ((p : Point) → Hold known.old p → ⊥)) }
    ensures refuted { IfOk result (λ a. IfRefuted a (AreRefutableBy known.old reads.now)) }
    ensures kept { (p : Point) → Hold known.old p → Hold known.new p }
    ensures keeps { Keeps known.old known.new }
    ensures readings { readings_of known.new ≡ readings_of known.old }
{
    match known.settle() {
        Stand::Proved => Ok(Answer::Holds),
        Stand::Settled => refute(alloc, known, reads),
        Stand::Unknown => Ok(Answer::Open),
    }
}

/// What is known of the conjunction of the chosen instances, where it doesn't follow at once.
fn aim_again(alloc: Global, known: &mut Known, reads: &[ReadInstance]) -> Result<Answer, AllocError>
    ensures holds { IfOk result (λ a. IfHolds a (AreProvedBy known.old reads.now)) }
    ensures refuted { IfOk result (λ a. IfRefuted a (AreRefutableBy known.old reads.now)) }
    ensures keeps { Keeps known.old known.new }
{
    match aim_at_once(alloc, known, reads)? {
        Answer::Holds => Ok(Answer::Holds),
        Answer::Refuted(numbers) => Ok(Answer::Refuted(numbers)),
        Answer::Open => aim_at_each(alloc, known, reads),
    }
}

/// What is known of the conjunction of the chosen instances: mostly that facts clash with its negation as they are taken.
fn aim_at_list(
    alloc: Global,
    known: &mut Known,
    reads: &[ReadInstance],
) -> Result<Answer, AllocError>
    ensures holds { IfOk result (λ a. IfHolds a (AreProvedBy known.old reads.now)) }
    ensures refuted { IfOk result (λ a. IfRefuted a (AreRefutableBy known.old reads.now)) }
    ensures keeps { Keeps known.old known.new }
{
    if proves_each(known, reads) {
        return Ok(Answer::Holds);
    }
    aim_again(alloc, known, reads)
}

/// What is known of a goal that is a predicate: it is proved, or nothing is known of it.
fn aim_at_known(known: &mut Known, read: &Rc<ReadPred>) -> Answer
    ensures holds { IfHolds result ((h : Formula) → IsReadOf known.old read.now.value h → (p : Point) → Hold known.old p
        → Meets p (reading_of false h) → ⊥) }
    ensures refuted { IfRefuted result (λ numbers. ⊥) }
    ensures keeps { Keeps known.old known.new }
{
    if known.proves_read(read) {
        return Answer::Holds;
    }
    match known.stand_against_read(read) {
        Stand::Proved => Answer::Holds,
        Stand::Settled | Stand::Unknown => Answer::Open,
    }
}

/// What is known of a goal.
pub(crate) fn aim(
    known: &mut Known,
    store: &mut Store,
    place: PartPlace,
    goal: &Part,
    instances: &Instances,
    chosen: &Chosen,
) -> Result<Answer, AllocError>
    ensures holds { IfOk result (λ a. IfHolds a ((F : Standing) → AreStored F known.old store.old
        → StandsAt F (instances_in instances.now) place (part_view goal.now) → (p : Point) → Hold known.old p
        → Meets p (reading_of false (goal_under (assignment_of instances.now chosen.now) (part_view goal.now))) → ⊥)) }
    ensures refuted { IfOk result (λ a. IfRefuted a (λ numbers. (F : Standing) → AreStored F known.old store.old
        → StandsAt F (instances_in instances.now) place (part_view goal.now)
        → IsGoalRefuted known.old (instances_in instances.now) (chosen_in chosen.now) (part_view goal.now) numbers)) }
    ensures stored { (F : Standing) → AreStored F known.old store.old
        → StandsAt F (instances_in instances.now) place (part_view goal.now) → AreStored F known.new store.new }
    ensures keeps { Keeps known.old known.new }
{
    match goal {
        Part::Known(pred) => {
            let read = read_known(known, store, place, pred)?;
            Ok(aim_at_known(known, &read))
        }
        Part::Unknown(unknown, by) => match instances.get(*unknown as usize) {
            Some(list) => {
                let reads = read_chosen(known, store, place, *unknown, by, list, chosen)?;
                aim_at_list(store.alloc, known, reads.as_slice())
            }
            None => Ok(Answer::Holds),
        },
    }
}
