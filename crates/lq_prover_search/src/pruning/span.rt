// Numbers that stand in a row.

/// So many numbers in a row, and how many stand before them. Numbers begin with 1.
#[derive(Clone, Copy, Debug, PartialEq, Eq)]
pub struct Span {
    pub before: u64,
    pub count: u64,
}

impl Span {
    ghost use Rattle.std.specs.Prelude.{◌≡◌, ◌↔◌, ◌+◌, ◌<◌, ◌^◌, IsTrue};
    ghost use Rattle.lq_prover_search.specs.Pruning.Span.{IsOutside, moved};

    /// Whether a number is none of these.
    pub(crate) fn spares(self, number: u64) -> bool
        ensures { IsTrue result ↔ IsOutside self number }
    {
        number <= self.before || number - self.before > self.count
    }

    /// What a number that is none of these is once these are gone. Of these each is the one before them all.
    pub(crate) fn moved(self, number: u64) -> u64
        ensures { result ≡ moved self number }
    {
        if number <= self.before {
            number
        } else {
            self.before + (number - self.before).saturating_sub(self.count)
        }
    }
}
