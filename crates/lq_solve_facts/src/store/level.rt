// Environments whose facts are kept.
ghost use Rattle.std.specs.Prelude.{◌≡◌, ◌<◌, ◌≤◌, ℕ, IsTrue, Some, length, slice_get};
ghost use Rattle.lq_refined_types.specs.Parts.Refuting.{IsUnknown};
ghost use Rattle.lq_refined_substitution.specs.Substitution.Views.{part_view};
ghost use Rattle.lq_solve_facts.specs.declared.store.level.Level.{Level};

use lq_refined_substitution::substitution::Part;

/// An environment whose hypotheses are among the facts: where these begin with so many, and the readings too, all of its hypotheses are in.
#[derive(Clone, Copy)]
pub(crate) struct Level {
    pub(crate) env: u64,
    /// The unknown that its last hypothesis is, where it is one.
    pub(crate) unknown: Option<u64>,
    pub(crate) mark: u64,
    pub(crate) readings: u64,
}

/// The unknown that a hypothesis is, if it is one.
pub(crate) fn unknown_of(part: &Part) -> Option<u64>
    ensures { (u : ℕ) → IsUnknown u (part_view part.now) → result ≡ Some u }
{
    match part {
        Part::Known(_) => None,
        Part::Unknown(unknown, _) => Some(*unknown),
    }
}

/// Whether the last hypothesis of a level's environment is an unknown.
fn ends_in(level: &Level, unknown: u64) -> bool
    ensures { level.now.unknown ≡ Some unknown → IsTrue result }
{
    match level.unknown {
        Some(own) => own == unknown,
        None => false,
    }
}

/// How many levels stand before the first one that ends in an unknown.
pub(crate) fn count_before(levels: &[Level], unknown: u64) -> usize
    ensures within { result ≤ length levels.now }
    ensures others { (i : ℕ) (l : Level) → i < result → slice_get levels.now i ≡ Some l → l.unknown ≡ Some unknown → ⊥ }
{
    for at in 0..levels.len() {
        if ends_in(&levels[at], unknown) {
            return at;
        }
    }
    levels.len()
}
