// Merges noted in the forest.
ghost use Rattle.std.specs.Prelude.{◌<◌, [], ◌∷◌, length, OnOk, OnErr};
ghost use Rattle.lq_prover_congruence.specs.Classes.Standing.{steps_of};
ghost use Rattle.lq_prover_congruence.specs.Classes.Forest.{IsKept, Notes};
ghost use Rattle.lq_prover_congruence.specs.Classes.Whole.{IsWhole};
ghost use Rattle.lq_prover_congruence.specs.declared.classes.steps.Step.TheVariants.{Merged};

use crate::classes::forest::Forest;
use crate::classes::state::State;
use std::alloc::AllocError;

impl Forest {
    /// Notes that two terms are to be made the same, where they aren't yet.
    pub(crate) fn note(
        &mut self,
        state: &State,
        a: u64,
        b: u64,
        reason: u64,
    ) -> Result<(), AllocError>
        requires whole { IsWhole state.now self.old }
        requires a_in { a < length state.now.known }
        requires b_in { b < length state.now.known }
        ensures ok { OnOk result (Notes (steps_of state.now.trail.items) (Merged a b reason)
            self.old self.new) }
        ensures err { OnErr result (IsKept (steps_of state.now.trail.items) self.new) }
    {
        if state.labels[a as usize] == state.labels[b as usize] {
            return Ok(());
        }
        let (from, to) = state.by_size(a, b);
        self.link(state.steps, from, to, reason)?;
        Ok(())
    }
}
