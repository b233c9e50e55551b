// Two classes joined.
ghost use Rattle.std.specs.Prelude.{◌≡◌, ◌≢◌, ◌⊎◌, ℕ, ◌<◌, ◌≤◌, length, slice_index, slice_index_or, [], OnOk, OnErr};
ghost use Rattle.lq_prover_congruence.specs.Ring.Ring.{IsTogether, times};
ghost use Rattle.lq_prover_congruence.specs.Classes.Moves.{IsReady, IsOwn, IsAsBefore, KeepsQueue, Unites};

use crate::classes::ids::Ids;
use crate::classes::state::State;
use crate::classes::steps::Entry;
use crate::ring::Rings;
use std::alloc::AllocError;

/// Puts the terms that have one of a ring among their arguments into the queue.
fn queue_users(
    rings: &Rings,
    uses: &[Ids],
    from: u64,
    queue: &mut Vec<u64>,
) -> Result<(), AllocError>
    requires from { from < length rings.now }
    requires room { length rings.now ≤ length uses.now }
    ensures kept { KeepsQueue queue.old.items queue.new.items }
    ensures users { OnOk result ((a i : ℕ) → IsTogether rings.now from a
        → 0 < times i (slice_index_or uses.now a []) → 0 < times i queue.new.items) }
{
    for member in rings.walk(from) {
        queue.extend_from_slice(uses[member as usize].as_slice())?;
    }
    Ok(())
}

/// Gives the terms of a ring a label.
pub(crate) fn relabel(labels: &mut [u64], rings: &Rings, from: u64, label: u64)
    requires from { from < length rings.now }
    requires room { length rings.now ≤ length labels.old }
    ensures ring { (i : ℕ) → IsTogether rings.now from i → slice_index labels.new i ≡ label }
    ensures others { (i : ℕ) → (IsTogether rings.now from i → ⊥)
        → slice_index labels.new i ≡ slice_index labels.old i }
{
    for member in rings.walk(from) {
        labels[member as usize] = label;
    }
}

/// Adds one size to another.
fn add_size(sizes: &mut [u64], kept: u64, moved: u64)
    requires kept { kept < length sizes.old }
    requires moved { moved < length sizes.old }
{
    sizes[kept as usize] = sizes[kept as usize].saturating_add(sizes[moved as usize]);
}

impl State {
    /// Gives the class of the label `moved` the label `kept`, and queues the terms whose signatures change.
    fn unite(&mut self, kept: u64, moved: u64, queue: &mut Vec<u64>) -> Result<(), AllocError>
        requires ready { IsReady self.old }
        requires kept { IsOwn self.old kept }
        requires moved { IsOwn self.old moved }
        requires differ { kept ≢ moved }
        ensures ok { OnOk result (Unites self.old self.new kept moved queue.old.items queue.new.items) }
        ensures err { OnErr result (IsAsBefore self.old self.new) }
    {
        queue_users(&self.rings, &self.uses, moved, queue)?;
        self.trail.push(Entry::Joined { kept, moved })?;
        relabel(&mut self.labels, &self.rings, moved, kept);
        self.rings.splice(kept, moved);
        add_size(&mut self.sizes, kept, moved);
        Ok(())
    }

    /// Joins two classes by their labels. The smaller class gets the label of the larger.
    pub(crate) fn join(
        &mut self,
        left: u64,
        right: u64,
        queue: &mut Vec<u64>,
    ) -> Result<(), AllocError>
        requires ready { IsReady self.old }
        requires left { IsOwn self.old left }
        requires right { IsOwn self.old right }
        requires differ { left ≢ right }
        ensures ok { OnOk result (Unites self.old self.new left right queue.old.items queue.new.items
            ⊎ Unites self.old self.new right left queue.old.items queue.new.items) }
        ensures err { OnErr result (IsAsBefore self.old self.new) }
    {
        if self.sizes[left as usize] < self.sizes[right as usize] {
            self.unite(right, left, queue)
        } else {
            self.unite(left, right, queue)
        }
    }

    /// Two terms, that of the smaller class first.
    pub(crate) fn by_size(&self, a: u64, b: u64) -> (u64, u64)
        requires ready { IsReady self.now }
        requires a_in { a < length self.now.known }
        requires b_in { b < length self.now.known }
        ensures { (result ≡ (a, b)) ⊎ (result ≡ (b, a)) }
    {
        let (left, right) = (self.labels[a as usize], self.labels[b as usize]);
        if self.sizes[left as usize] < self.sizes[right as usize] {
            (a, b)
        } else {
            (b, a)
        }
    }
}
