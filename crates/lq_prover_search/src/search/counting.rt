// How much a reading adds to a path.
ghost use Rattle.std.specs.Prelude.{◌≡◌, ◌+◌, ◌^◌, ◌≤◌, IfNone, IfSome, length};
ghost use Rattle.lq_prover_proof_tree.specs.Trees.Path.{each_taken, nothing, taken};
ghost use Rattle.lq_logic_predicates.specs.NnfView.{nnf_view, nnfs_view};

use lq_logic_predicates::{Nnf, Nnfs};

/// How many facts and how many choices.
#[derive(Clone, Copy, Debug, PartialEq, Eq)]
pub struct Counts {
    pub facts: u64,
    pub choices: u64,
}

impl Counts {
    /// The sums, where they are within 64 bits.
    fn plus(self, other: Counts) -> Option<Counts>
        ensures some { IfSome result (λ c. (c.facts ≡ self.facts + other.facts)
            × (c.choices ≡ self.choices + other.choices)) }
        ensures none { IfNone result (2 ^ 64 ≤ (self.facts + other.facts) + (self.choices + other.choices)) }
    {
        Some(Counts {
            facts: self.facts.checked_add(other.facts)?,
            choices: self.choices.checked_add(other.choices)?,
        })
    }
}

/// How many facts and choices a reading adds to a path when all of it is taken, and None where these are too many for 64 bits.
#[cycle(count)]
pub fn count_added(reading: &Nnf) -> Option<Counts>
    ensures some { IfSome result (λ c. (c.facts ≡ length (taken nothing (nnf_view reading.now)).facts)
        × (c.choices ≡ length (taken nothing (nnf_view reading.now)).choices)) }
    ensures none { IfNone result (2 ^ 64 ≤ length (taken nothing (nnf_view reading.now)).facts
        + length (taken nothing (nnf_view reading.now)).choices) }
{
    match reading {
        Nnf::Yes => Some(Counts {
            facts: 0,
            choices: 0,
        }),
        Nnf::No | Nnf::Row(_) | Nnf::Flag(_, _) | Nnf::Same(_, _, _) => Some(Counts {
            facts: 1,
            choices: 0,
        }),
        Nnf::All(readings) => count_all(readings),
        Nnf::Any(_) => Some(Counts {
            facts: 0,
            choices: 1,
        }),
    }
}

/// How many facts and choices readings add together.
#[cycle(count)]
fn count_all(readings: &Nnfs) -> Option<Counts>
    ensures some { IfSome result (λ c. (c.facts ≡ length (each_taken nothing (nnfs_view readings.now)).facts)
        × (c.choices ≡ length (each_taken nothing (nnfs_view readings.now)).choices)) }
    ensures none { IfNone result (2 ^ 64 ≤ length (each_taken nothing (nnfs_view readings.now)).facts
        + length (each_taken nothing (nnfs_view readings.now)).choices) }
{
    let mut sum = Counts {
        facts: 0,
        choices: 0,
    };
    for reading in readings.as_slice() {
        sum = sum.plus(count_added(reading)?)?;
    }
    Some(sum)
}
