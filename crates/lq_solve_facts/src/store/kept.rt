// Facts and readings that are kept from question to question.
ghost use Rattle.lq_solve_facts.specs.Facts.Known.{Hold};
ghost use Rattle.lq_solve_facts.specs.Store.Store.{AreStored, Standing};
ghost use Rattle.lq_logic_predicates.specs.Points.{Point};

use crate::facts::Known;
use crate::store::adding::add_part;
use crate::store::aiming::aim;
use crate::store::answer::Answer;
use crate::store::left::add_parts;
use crate::store::level::{Level, count_before, unknown_of};
use crate::store::store::{PartPlace, Store};
use crate::store::way::Step;
use lq_refined_instances::Instances;
use lq_refined_substitution::implications::Implications;
use lq_solve_fixpoint::weakening::Chosen;
use std::alloc::{AllocError, Global};

/// Over how many terms facts are at first.
const FEW_TERMS: u64 = 64;

/// No more terms have facts.
const TERMS: u64 = 65536;

/// A check makes no more pivots.
const PIVOTS: u64 = 1000;

/// The facts and readings of an environment, with those of the environments whose hypotheses it has before them.
#[derive(Drop)]
pub struct Kept {
    alloc: Global,
    room: u64,
    /// How many pivots a check makes at most.
    limit: u64,
    known: Known,
    /// Readings over the terms that are known, each made once.
    store: Store,
    /// Environments that are kept, each behind its parent.
    levels: Vec<Level>,
    /// Where an environment stands among them, if it does; else any number.
    places: Vec<usize>,
}

/// Makes what is known anew, without facts and without readings, where no more terms have any.
fn renew(alloc: Global, room: u64, limit: u64, known: &mut Known, store: &mut Store)
    ensures held { ((p : Point) → Hold known.old p) → (p : Point) → Hold known.new p }
    ensures stored { (F : Standing) → AreStored F known.old store.old → AreStored F known.new store.new }
{
    if !known.is_full() {
        return;
    }
    match Known::without_checks(alloc, room, limit) {
        Ok(made) => {
            *known = made;
            *store = Store::new(alloc);
        }
        Err(AllocError) => {}
    }
}

/// Another room, where no more terms have facts.
fn room_after(known: &Known, room: u64, other: u64) -> u64 {
    if known.is_full() {
        return other;
    }
    room
}

/// Notes where an environment stands.
fn note_place(places: &mut [usize], env: u64, place: usize) {
    if env < places.len() as u64 {
        places[env as usize] = place;
    }
}

impl Kept {
    ghost use Rattle.std.specs.Prelude.{◌≡◌, ◌<◌, ℕ, List, [], ◌∷◌, ◌++◌, ◌+◌, IfOk, IsTrue, OnOk, Some, length, slice_get, take};
    ghost use Rattle.lq_refined_substitution.specs.Implications.Views.{environment_in, environment_lists};
    ghost use Rattle.lq_refined_types.specs.Parts.Assignment.{Assignment};
    ghost use Rattle.lq_refined_types.specs.Parts.Constraint.{Constraint};
    ghost use Rattle.lq_refined_types.specs.Parts.Part.{Parts};
    ghost use Rattle.lq_refined_substitution.specs.Substitution.Views.{part_view};
    ghost use Rattle.lq_solve_fixpoint.specs.Questions.Assigned.{assignment_of, constraints_of, instances_in};
    ghost use Rattle.lq_solve_fixpoint.specs.Weakening.Chosen.{chosen_in};
    ghost use Rattle.lq_solve_fixpoint.specs.Weakening.Judging.{FlowFailsThere, HoldsThere};
    ghost use Rattle.lq_solve_facts.specs.Store.Answer.{IfHolds, IfRefuted};
    ghost use Rattle.lq_solve_facts.specs.Store.Kept.{AreAlike, HasReadings, IsKeptFor, Stands};
    ghost use Rattle.lq_solve_facts.specs.Store.Way.{IsUnderWay};

    /// No facts, for questions about some implications. A check makes at most `limit` pivots, and never many.
    pub fn new(alloc: Global, implications: &Implications, limit: u64) -> Result<Kept, AllocError>
        ensures kept { IfOk result (λ kept. (A : Assignment) (es : List Parts) → IsKeptFor A es kept) }
        ensures stored { IfOk result (λ kept. (I : Assignment) (es : List Parts) (cs : List Constraint) → HasReadings I es cs kept) }
    {
        let environments = implications.env_count();
        let limit = limit.min(PIVOTS);
        Ok(Kept {
            alloc,
            room: FEW_TERMS,
            limit,
            known: Known::without_checks(alloc, FEW_TERMS, limit)?,
            store: Store::new(alloc),
            levels: Vec::new(alloc),
            places: vec![in alloc; 0; environments as usize]?,
        })
    }

    // Begins without facts, over the same terms.
    fn begin_empty(&mut self)
        ensures kept { (A : Assignment) (es : List Parts) → IsKeptFor A es self.new }
        ensures nothing { (A : Assignment) (es : List Parts) (env : ℕ) → environment_in es env ≡ [] → Stands A es self.new env }
        ensures held { (p : Point) → Hold self.new.known p }
        ensures none { self.new.levels.items ≡ [] }
        ensures stored { (I : Assignment) (es : List Parts) (cs : List Constraint) → HasReadings I es cs self.old → HasReadings I es cs self.new }
    {
        self.levels.clear();
        self.known.back_to(0, 0);
    }

    // Begins without facts, over so many terms where no more have any.
    fn begin_anew(&mut self, room: u64)
        ensures kept { (A : Assignment) (es : List Parts) → IsKeptFor A es self.new }
        ensures nothing { (A : Assignment) (es : List Parts) (env : ℕ) → environment_in es env ≡ [] → Stands A es self.new env }
        ensures stored { (I : Assignment) (es : List Parts) (cs : List Constraint) → HasReadings I es cs self.old → HasReadings I es cs self.new }
    {
        self.room = room_after(&self.known, self.room, room);
        self.begin_empty();
        renew(
            self.alloc,
            self.room,
            self.limit,
            &mut self.known,
            &mut self.store,
        );
    }

    /// Forgets all facts. The readings stay, unless there is no room for more terms.
    pub fn reset(&mut self)
        ensures kept { (A : Assignment) (es : List Parts) → IsKeptFor A es self.new }
        ensures nothing { (A : Assignment) (es : List Parts) (env : ℕ) → environment_in es env ≡ [] → Stands A es self.new env }
        ensures stored { (I : Assignment) (es : List Parts) (cs : List Constraint) → HasReadings I es cs self.old → HasReadings I es cs self.new }
    {
        if self.room < TERMS {
            self.begin_empty();
            return;
        }
        self.begin_anew(FEW_TERMS);
    }

    /// Forgets all facts and all readings.
    pub fn clear(&mut self)
        ensures kept { (A : Assignment) (es : List Parts) → IsKeptFor A es self.new }
        ensures stored { (I : Assignment) (es : List Parts) (cs : List Constraint) → HasReadings I es cs self.new }
    {
        self.reset();
        self.store = Store::new(self.alloc);
    }

    /// Forgets what speaks of an unknown: keeps the environments before the first one that ends in it.
    pub fn forget(&mut self, unknown: u64)
        ensures kept { (A B : Assignment) (es : List Parts) → AreAlike unknown A B → IsKeptFor A es self.old → IsKeptFor B es self.new }
        ensures stored { (I : Assignment) (es : List Parts) (cs : List Constraint) → HasReadings I es cs self.old → HasReadings I es cs self.new }
    {
        let count = count_before(self.levels.as_slice(), unknown);
        if count == self.levels.len() {
            return;
        }
        if count == 0 {
            self.reset();
            return;
        }
        self.back_to_level(count - 1);
    }

    // Keeps the levels up to one of them.
    fn back_to_level(&mut self, at: usize)
        requires { at < length self.old.levels.items }
        ensures levels { self.new.levels.items ≡ take (at + 1) self.old.levels.items }
        ensures kept { (A : Assignment) (es : List Parts) → IsKeptFor A es self.old → IsKeptFor A es self.new }
        ensures stands { (l : Level) → slice_get self.old.levels.items at ≡ Some l → (A : Assignment) (es : List Parts)
            → IsKeptFor A es self.old → Stands A es self.new l.env }
        ensures stored { (I : Assignment) (es : List Parts) (cs : List Constraint) → HasReadings I es cs self.old → HasReadings I es cs self.new }
    {
        let level = self.levels[at];
        self.levels.truncate(at + 1);
        self.known.back_to(level.mark, level.readings);
    }

    // Goes back to an environment, where it is kept. The answer is whether it is.
    fn back_to(&mut self, env: u64) -> bool
        ensures kept { (A : Assignment) (es : List Parts) → IsKeptFor A es self.old → IsKeptFor A es self.new }
        ensures stands { IsTrue result → (A : Assignment) (es : List Parts) → IsKeptFor A es self.old
            → Stands A es self.new env }
        ensures stored { (I : Assignment) (es : List Parts) (cs : List Constraint) → HasReadings I es cs self.old → HasReadings I es cs self.new }
    {
        let Some(place) = self.places.get(env as usize) else {
            return false;
        };
        let at = *place;
        let Some(level) = self.levels.get(at) else {
            return false;
        };
        if level.env != env {
            return false;
        }
        self.back_to_level(at);
        true
    }

    // Goes back to the nearest environment on the way up from one that is kept, or to the empty one. Those before it are the answer, the
    // innermost first.
    fn way_to<'a>(
        &mut self,
        implications: &'a Implications,
        env: u64,
    ) -> Result<Vec<Step<'a>>, AllocError>
        requires { env < length (environment_lists implications.now) }
        ensures kept { (A : Assignment) → IsKeptFor A (environment_lists implications.now) self.old
            → IsKeptFor A (environment_lists implications.now) self.new }
        ensures way { IfOk result (λ steps. (A : Assignment) → IsKeptFor A (environment_lists implications.now) self.old
            → IsUnderWay A (environment_lists implications.now) self.new steps.items env) }
        ensures stored { (I : Assignment) (es : List Parts) (cs : List Constraint) → HasReadings I es cs self.old → HasReadings I es cs self.new }
    {
        let mut steps = Vec::new(self.alloc);
        let mut at = env;
        let mut found = self.back_to(at);
        while !found {
            let Some((parent, part)) = implications.environment(at) else {
                self.reset();
                return Ok(steps);
            };
            steps.push(Step { env: at, part })?;
            at = parent;
            found = self.back_to(at);
        }
        Ok(steps)
    }

    // Keeps an environment: adds its hypothesis behind the facts of its parent.
    fn add_level(
        &mut self,
        step: &Step<'_>,
        instances: &Instances,
        chosen: &Chosen,
    ) -> Result<(), AllocError>
        ensures kept { (es : List Parts) (cs : List Constraint) (at : ℕ) → HasReadings (instances_in instances.now) es cs self.old
            → IsKeptFor (assignment_of instances.now chosen.now) es self.old
            → Stands (assignment_of instances.now chosen.now) es self.old at
            → environment_in es step.now.env ≡ environment_in es at ++ part_view step.now.part.now ∷ []
            → IsKeptFor (assignment_of instances.now chosen.now) es self.new }
        ensures stands { OnOk result ((es : List Parts) (cs : List Constraint) (at : ℕ)
            → HasReadings (instances_in instances.now) es cs self.old
            → Stands (assignment_of instances.now chosen.now) es self.old at
            → environment_in es step.now.env ≡ environment_in es at ++ part_view step.now.part.now ∷ []
            → Stands (assignment_of instances.now chosen.now) es self.new step.now.env) }
        ensures stored { (es : List Parts) (cs : List Constraint) (at : ℕ) → HasReadings (instances_in instances.now) es cs self.old
            → environment_in es step.now.env ≡ environment_in es at ++ part_view step.now.part.now ∷ []
            → HasReadings (instances_in instances.now) es cs self.new }
    {
        add_part(
            &mut self.known,
            &mut self.store,
            PartPlace::Environment(step.env),
            step.part,
            instances,
            chosen,
        )?;
        let place = self.levels.len();
        let unknown = unknown_of(step.part);
        let mark = self.known.mark();
        let readings = self.known.reading_count();
        self.levels.push(Level {
            env: step.env,
            unknown,
            mark,
            readings,
        })?;
        note_place(&mut self.places, step.env, place);
        Ok(())
    }

    // Makes room for twice as many terms, where no more have facts: then all facts are taken anew.
    fn make_room(&mut self)
        ensures kept { (A : Assignment) (es : List Parts) → IsKeptFor A es self.old → IsKeptFor A es self.new }
        ensures stored { (I : Assignment) (es : List Parts) (cs : List Constraint) → HasReadings I es cs self.old → HasReadings I es cs self.new }
    {
        if self.known.is_full() && self.room < TERMS {
            self.begin_anew(self.room.saturating_mul(2));
        }
    }

    // Lets exactly the facts of an environment stand.
    fn stand_in(
        &mut self,
        implications: &Implications,
        env: u64,
        instances: &Instances,
        chosen: &Chosen,
    ) -> Result<(), AllocError>
        requires there { env < length (environment_lists implications.now) }
        requires kept { IsKeptFor (assignment_of instances.now chosen.now) (environment_lists implications.now) self.old }
        requires stored { HasReadings (instances_in instances.now) (environment_lists implications.now) (constraints_of implications.now)
            self.old }
        ensures kept { IsKeptFor (assignment_of instances.now chosen.now) (environment_lists implications.now) self.new }
        ensures stands { OnOk result (Stands (assignment_of instances.now chosen.now) (environment_lists implications.now)
            self.new env) }
        ensures stored { HasReadings (instances_in instances.now) (environment_lists implications.now) (constraints_of implications.now)
            self.new }
    {
        self.make_room();
        let mut steps = self.way_to(implications, env)?;
        while let Some(step) = steps.pop() {
            self.add_level(&step, instances, chosen)?;
        }
        Ok(())
    }

    /// What is known of an implication under the chosen instances, for which what is kept is right. It holds where facts of its hypotheses
    /// refute the negation of its goal. It is refuted where its goal is an unknown, and values that solve the facts with those of the negation
    /// of a chosen instance meet all hypotheses. The facts and readings of its environment are kept.
    pub fn ask(
        &mut self,
        implications: &Implications,
        at: u64,
        instances: &Instances,
        chosen: &Chosen,
    ) -> Result<Answer, AllocError>
        requires there { at < length (constraints_of implications.now) }
        requires kept { IsKeptFor (assignment_of instances.now chosen.now) (environment_lists implications.now) self.old }
        requires stored { HasReadings (instances_in instances.now) (environment_lists implications.now) (constraints_of implications.now)
            self.old }
        ensures holds { IfOk result (λ answer. IfHolds answer (HoldsThere (instances_in instances.now)
            (constraints_of implications.now) (chosen_in chosen.now) at)) }
        ensures refuted { IfOk result (λ answer. IfRefuted answer (FlowFailsThere (instances_in instances.now)
            (constraints_of implications.now) (chosen_in chosen.now) at)) }
        ensures kept { IsKeptFor (assignment_of instances.now chosen.now) (environment_lists implications.now) self.new }
        ensures stored { HasReadings (instances_in instances.now) (environment_lists implications.now) (constraints_of implications.now)
            self.new }
    {
        let Some(implication) = implications.get(at as usize) else {
            return Ok(Answer::Open);
        };
        if implication.env >= implications.env_count() {
            return Ok(Answer::Open);
        }
        self.stand_in(implications, implication.env, instances, chosen)?;
        add_parts(
            &mut self.known,
            &mut self.store,
            at,
            implication.left.as_slice(),
            instances,
            chosen,
        )?;
        aim(
            &mut self.known,
            &mut self.store,
            PartPlace::Goal(at),
            &implication.goal,
            instances,
            chosen,
        )
    }
}
