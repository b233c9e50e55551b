// What was done, taken back.
ghost use Rattle.std.specs.Prelude.{◌≡◌, ◌≢◌, ℕ, ◌<◌, List, [], ◌∷◌, ◌++◌, length, slice_index_or};
ghost use Rattle.lq_prover_congruence.specs.Ring.Ring.{times};
ghost use Rattle.lq_prover_congruence.specs.Classes.Core.{Core, AllBelow, IsShaped};
ghost use Rattle.lq_prover_congruence.specs.Classes.Standing.{core_of, HasUses, IsAdded, IsJoined, Does};
ghost use Rattle.lq_prover_congruence.specs.Classes.Moves.{IsInOrder, IsReady, IsBeside, LastLed};
ghost use Rattle.lq_prover_congruence.specs.declared.classes.head.Head.{Head};
ghost use Rattle.lq_prover_congruence.specs.declared.classes.steps.Entry.{Entry as AnEntry};

use crate::classes::ids::Ids;
use crate::classes::joining::relabel;
use crate::classes::state::State;
use crate::classes::steps::{Entry, Step};

/// Takes a term off the users of its arguments.
fn forget(uses: &mut [Ids], args: &[u64], term: u64)
    requires { AllBelow (length uses.old) args.now }
    ensures { (a i : ℕ) → i ≢ term → 0 < times i (slice_index_or uses.old a [])
        → 0 < times i (slice_index_or uses.new a []) }
{
    for arg in args {
        let users = &mut uses[*arg as usize];
        users.pop_if(term);
    }
}

/// Takes one size from another.
fn subtract_size(sizes: &mut [u64], kept: u64, moved: u64)
    requires kept { kept < length sizes.old }
    requires moved { moved < length sizes.old }
{
    sizes[kept as usize] = sizes[kept as usize].saturating_sub(sizes[moved as usize]);
}

impl State {
    /// Gives the class that was joined to another its label back.
    fn part(&mut self, kept: u64, moved: u64)
        requires ready { IsReady self.old }
        requires joined { (before : Core) × IsShaped before × IsJoined kept moved before (core_of self.old) }
        ensures core { (before : Core) → IsShaped before → IsJoined kept moved before (core_of self.old)
            → core_of self.new ≡ before }
        ensures trail { self.new.trail ≡ self.old.trail }
        ensures beside { IsBeside self.old self.new }
    {
        self.rings.split_after(kept, moved);
        relabel(&mut self.labels, &self.rings, moved, moved);
        subtract_size(&mut self.sizes, kept, moved);
    }

    /// Takes back the last term.
    fn remove(&mut self, args: &Ids)
        requires ready { IsReady self.old }
        requires added { (head : Head) × (before : Core) × IsShaped before
            × IsAdded (head, args.now) before (core_of self.old) }
        ensures core { (head : Head) (before : Core) → IsShaped before
            → IsAdded (head, args.now) before (core_of self.old) → core_of self.new ≡ before }
        ensures trail { self.new.trail ≡ self.old.trail }
        ensures uses { HasUses self.new.known self.new.uses.items }
        ensures sizes { length self.new.sizes.items ≡ length self.new.known }
        ensures steps { self.new.steps ≡ self.old.steps }
    {
        let term = self.known.len() as u64 - 1;
        forget(&mut self.uses, args.as_slice(), term);
        self.uses.pop();
        self.sizes.pop();
        self.labels.pop();
        self.rings.pop();
        self.known.pop();
    }

    /// Takes back the last entry of the trail.
    pub(crate) fn undo(&mut self)
        requires order { IsInOrder self.old }
        requires led { LastLed self.old }
        ensures trail { (before : List AnEntry) (entry : AnEntry)
            → self.old.trail.items ≡ before ++ entry ∷ [] → self.new.trail.items ≡ before }
        ensures core { (before : List AnEntry) (entry : AnEntry) (from : Core)
            → self.old.trail.items ≡ before ++ entry ∷ [] → IsShaped from
            → Does entry from (core_of self.old) → core_of self.new ≡ from }
        ensures order { IsInOrder self.new }
    {
        match self.trail.pop() {
            None => {}
            Some(Entry::Filed) => self.filed.pop(),
            Some(Entry::Joined { kept, moved }) => self.part(kept, moved),
            Some(Entry::Done(step)) => {
                self.steps -= 1;
                if let Step::Added(_, args) = step {
                    self.remove(&args);
                }
            }
        }
    }
}
