// Steps, each with what follows from it.
ghost use Rattle.std.specs.Prelude.{◌≡◌, ℕ, ◌<◌, ◌≤◌, List, [], ◌∷◌, ◌++◌, length, take, slice_index, None, OnOk, OnErr};
ghost use Rattle.lq_prover_congruence.specs.Classes.Terms.{find_in};
ghost use Rattle.lq_prover_congruence.specs.Classes.Keys.{term_of};
ghost use Rattle.lq_prover_congruence.specs.Classes.Core.{Core, AllBelow};
ghost use Rattle.lq_prover_congruence.specs.Classes.Steps.{IsSame};
ghost use Rattle.lq_prover_congruence.specs.Classes.Standing.{core_of, steps_of, Leads, IsStanding, StepDoes};
ghost use Rattle.lq_prover_congruence.specs.Classes.Moves.{IsAsBefore, IsBack, IsInOrder, IsWorking, LedFrom, Goes, GoesBack, Steps};
ghost use Rattle.lq_prover_congruence.specs.declared.classes.steps.Step.TheVariants.{Added, Merged, Differed};

use crate::classes::ids::Ids;
use crate::classes::state::State;
use crate::classes::steps::{Entry, Step};
use crate::classes::table::Key;
use std::alloc::AllocError;

impl State {
    /// Takes back the last entries of the trail, until this many are left.
    fn undo_to(&mut self, kept: usize)
        requires order { IsInOrder self.old }
        requires led { LedFrom self.old kept }
        ensures back { GoesBack self.old self.new kept }
        ensures order { IsInOrder self.new }
    {
        while self.trail.len() > kept {
            self.undo();
        }
    }

    /// A step that changes nothing by itself.
    fn note(&mut self, step: Step) -> Result<(), AllocError>
        requires order { IsInOrder self.old }
        requires nothing { StepDoes step (core_of self.old) (core_of self.old) }
        ensures ok { OnOk result (Steps self.old self.new step) }
        ensures err { OnErr result (IsAsBefore self.old self.new) }
    {
        self.trail.push(Entry::Done(step))?;
        self.steps += 1;
        Ok(())
    }

    /// Joins the classes of two terms, and those that follow.
    fn bring_together(&mut self, a: u64, b: u64) -> Result<(), AllocError>
        requires working { IsWorking self.old [] 0 0 }
        requires a_in { a < length self.old.known }
        requires b_in { b < length self.old.known }
        requires same { IsSame (steps_of self.old.trail.items) a b }
        ensures goes { Goes self.old self.new }
        ensures working { OnOk result (IsWorking self.new [] 0 0) }
        ensures met { OnOk result (slice_index self.new.labels.items a
            ≡ slice_index self.new.labels.items b) }
    {
        let (left, right) = (self.labels[a as usize], self.labels[b as usize]);
        if left == right {
            return Ok(());
        }
        let mut queue = Vec::new(self.alloc);
        self.join(left, right, &mut queue)?;
        self.close(&mut queue)?;
        Ok(())
    }

    /// Makes two terms the same.
    pub(crate) fn merge(&mut self, a: u64, b: u64, reason: u64) -> Result<(), AllocError>
        requires standing { IsStanding self.old }
        requires a_in { a < length self.old.known }
        requires b_in { b < length self.old.known }
        ensures standing { IsStanding self.new }
        ensures ok { OnOk result (steps_of self.new.trail.items
            ≡ steps_of self.old.trail.items ++ Merged a b reason ∷ []) }
        ensures err { OnErr result (steps_of self.new.trail.items ≡ steps_of self.old.trail.items) }
    {
        let kept = self.trail.len();
        self.note(Step::Merged(a, b, reason))?;
        if let Err(refused) = self.bring_together(a, b) {
            self.undo_to(kept);
            return Err(refused);
        }
        Ok(())
    }

    /// Says that two terms differ.
    pub(crate) fn differ(&mut self, a: u64, b: u64) -> Result<(), AllocError>
        requires standing { IsStanding self.old }
        requires a_in { a < length self.old.known }
        requires b_in { b < length self.old.known }
        ensures standing { IsStanding self.new }
        ensures ok { OnOk result (steps_of self.new.trail.items
            ≡ steps_of self.old.trail.items ++ Differed a b ∷ []) }
        ensures err { OnErr result (steps_of self.new.trail.items ≡ steps_of self.old.trail.items) }
    {
        self.note(Step::Differed(a, b))?;
        Ok(())
    }

    /// Adds a term that isn't there, and joins it with those that are the same.
    pub(crate) fn add_new(&mut self, key: Key, args: Ids) -> Result<(), AllocError>
        requires standing { IsStanding self.old }
        requires new { find_in self.old.known (term_of key) ≡ None }
        requires args { args ≡ key.args.items }
        requires known { AllBelow (length self.old.known) args }
        ensures standing { IsStanding self.new }
        ensures ok { OnOk result (steps_of self.new.trail.items
            ≡ steps_of self.old.trail.items ++ Added key.head args ∷ []) }
        ensures err { OnErr result (steps_of self.new.trail.items ≡ steps_of self.old.trail.items) }
    {
        let kept = self.trail.len();
        let mut queue = Vec::new(self.alloc);
        queue.push(self.known.len() as u64)?;
        self.add(key, args)?;
        if let Err(refused) = self.close(&mut queue) {
            self.undo_to(kept);
            return Err(refused);
        }
        Ok(())
    }

    /// Takes back the last steps with what followed from them, until this many stand.
    pub(crate) fn back_to(&mut self, steps: u64)
        requires standing { IsStanding self.old }
        requires enough { steps ≤ length (steps_of self.old.trail.items) }
        ensures standing { IsStanding self.new }
        ensures first { steps_of self.new.trail.items ≡ take steps (steps_of self.old.trail.items) }
    {
        while self.steps > steps {
            self.undo();
        }
    }
}
