// One more term.
ghost use Rattle.std.specs.Prelude.{◌≡◌, ℕ, ◌<◌, [], ◌∷◌, ◌++◌, length, slice_index_or, None, OnOk, OnErr};
ghost use Rattle.lq_prover_congruence.specs.Ring.Ring.{times};
ghost use Rattle.lq_prover_congruence.specs.Classes.Terms.{find_in};
ghost use Rattle.lq_prover_congruence.specs.Classes.Keys.{term_of};
ghost use Rattle.lq_prover_congruence.specs.Classes.Core.{AllBelow};
ghost use Rattle.lq_prover_congruence.specs.Classes.Moves.{IsAsBefore, IsInOrder, IsBack, Grows, Steps, KeepsUses};
ghost use Rattle.lq_prover_congruence.specs.declared.classes.steps.Step.TheVariants.{Added};

use crate::classes::ids::Ids;
use crate::classes::state::State;
use crate::classes::steps::{Entry, Step};
use crate::classes::table::Key;
use std::alloc::AllocError;

/// Lists a term among the users of its arguments.
fn list_user(uses: &mut [Ids], args: &[u64], term: u64) -> Result<(), AllocError>
    requires { AllBelow (length uses.old) args.now }
    ensures kept { KeepsUses uses.old uses.new }
    ensures listed { OnOk result ((a : ℕ) → 0 < times a args.now
        → 0 < times term (slice_index_or uses.new a [])) }
{
    for arg in args {
        let users = &mut uses[*arg as usize];
        users.push(term)?;
    }
    Ok(())
}

impl State {
    /// Puts a term after the others, with no users, in a class of its own.
    fn grow(&mut self, key: Key, step: Step, users: Ids) -> Result<(), AllocError>
        requires order { IsInOrder self.old }
        requires new { find_in self.old.known (term_of key) ≡ None }
        ensures ok { OnOk result (Grows self.old self.new (term_of key) step users) }
        ensures err { OnErr result (IsAsBefore self.old self.new) }
    {
        let term = self.known.len() as u64;
        self.labels.reserve(1)?;
        self.sizes.reserve(1)?;
        self.uses.reserve(1)?;
        self.trail.reserve(1)?;
        self.rings.push()?;
        if let Err(refused) = self.known.insert(key, term) {
            self.rings.pop();
            return Err(refused);
        }
        self.labels.push_reserved(term);
        self.sizes.push_reserved(1);
        self.uses.push_reserved(users);
        self.trail.push_reserved(Entry::Done(step));
        self.steps += 1;
        Ok(())
    }

    /// Adds a term with its users.
    pub(crate) fn add(&mut self, key: Key, args: Ids) -> Result<(), AllocError>
        requires order { IsInOrder self.old }
        requires new { find_in self.old.known (term_of key) ≡ None }
        requires args { args ≡ key.args.items }
        requires known { AllBelow (length self.old.known) args }
        ensures ok { OnOk result (Steps self.old self.new (Added key.head args)) }
        ensures err { OnErr result (IsBack self.old self.new) }
    {
        let term = self.known.len() as u64;
        let users = Ids::new(self.alloc)?;
        list_user(&mut self.uses, &key.args, term)?;
        let head = key.head;
        self.grow(key, Step::Added(head, args), users)?;
        Ok(())
    }
}
