// A walk round a ring.
ghost use Rattle.std.specs.Prelude.{◌≡◌, ◌<◌, ◌==◌, if◌then◌else◌, length, slice_index};
ghost use Rattle.std.specs.Iterator.{YieldsFirst, item_count};

use std::marker::Model;

/// The indexes of a ring, from one of them on. Seen as the list of those that are left.
#[derive(Drop)]
pub struct RingWalk<'a> {
    pub(crate) next: &'a [u64],
    pub(crate) first: u64,
    pub(crate) at: Option<u64>,
}

impl<'a> Model for RingWalk<'a> {
    ghost use Rattle.std.specs.Prelude.{ℕ, List};
    ghost use Rattle.lq_prover_congruence.specs.Ring.Walk.{left_of, IsWalk};

    ghost Value = { List ℕ };

    ghost view = { λ w. left_of w.next.now w.first w.at };

    ghost invariant = { λ w. IsWalk w.next.now w.first w.at };
}

/// The index after `at`, if that isn't the first again.
fn after(next: &[u64], first: u64, at: u64) -> Option<u64>
    requires { at < length next.now }
    ensures { result ≡ (if slice_index next.now at == first then None else Some (slice_index next.now at)) }
{
    let next = next[at as usize];
    if next == first { None } else { Some(next) }
}

impl<'a> Iterator for RingWalk<'a> {
    type Item = u64;

    ghost next_gives = { YieldsFirst (λ w. w) };

    ghost remaining = { item_count (λ w. w) };

    fn next(&mut self) -> Option<u64> {
        let at = self.at?;
        self.at = after(self.next, self.first, at);
        Some(at)
    }
}
