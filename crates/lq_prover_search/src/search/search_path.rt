// The path of a search.
ghost use Rattle.std.specs.Prelude.{◌≡◌, ◌<◌, ◌≤◌, ℕ, [], All, IfOk, false, length, take};
ghost use Rattle.lq_prover_case.specs.State.PathState.{KeepsHanded, facts_in};
ghost use Rattle.lq_prover_search.specs.Path.SearchPath.{SameLimits, choices_of};
ghost use Rattle.lq_logic_predicates.specs.Sum.{Sum};
ghost use Rattle.lq_prover_search.specs.Search.SearchPath.{AreAllOpen, SetsDone, ways_of};

use crate::path::Choice;
use crate::search::counting::Counts;
use crate::search::order::Order;
use crate::search::pair::Pair;
use lq_logic_rows::Mark;
use lq_prover_case::state::PathState;
use std::alloc::{AllocError, Global};

/// The facts of a path with what is known of them, its choices, and the pairs of applications, whose ways are the members of a choice each.
#[derive(Drop)]
pub struct SearchPath<'a> {
    pub state: PathState,
    pub choices: Vec<Choice<'a>>,
    pub pairs: Vec<Choice<'a>>,
    pub(crate) order: Order,
}

impl<'a> SearchPath<'a> {
    /// No choices, and no way of a pair was taken.
    pub fn new(
        alloc: Global,
        state: PathState,
        pairs: &'a [Pair],
    ) -> Result<SearchPath<'a>, AllocError>
        ensures state { IfOk result (λ path. path.state ≡ state) }
        ensures choices { IfOk result (λ path. path.choices.items ≡ []) }
        ensures pairs { IfOk result (λ path. choices_of path.pairs.items ≡ ways_of pairs.now) }
        ensures open_still { IfOk result (λ path. All (λ c. c.is_done ≡ false) path.pairs.items) }
    {
        let mut ways = Vec::new(alloc);
        for pair in pairs {
            ways.push(Choice {
                members: &pair.ways,
                is_done: false,
            })?;
        }
        Ok(SearchPath {
            state,
            choices: Vec::new(alloc),
            pairs: ways,
            order: Order::new(alloc),
        })
    }

    /// How many facts and choices there are.
    pub fn counts(&self) -> Counts
        ensures facts { (name : ℕ → Sum) → result.facts ≡ length (facts_in name self.now.state) }
        ensures choices { result.choices ≡ length self.now.choices.items }
    {
        Counts {
            facts: self.state.mark().0,
            choices: self.choices.len() as u64,
        }
    }

    /// Keeps so many of the first facts and choices.
    pub fn back_to(&mut self, counts: Counts)
        requires { (name : ℕ → Sum) → counts.facts ≤ length (facts_in name self.old.state) }
        ensures facts { (name : ℕ → Sum) → facts_in name self.new.state ≡ take counts.facts (facts_in name self.old.state) }
        ensures limits { SameLimits self.new.state self.old.state }
        ensures handed { KeepsHanded self.old.state self.new.state }
        ensures choices { self.new.choices.items ≡ take counts.choices self.old.choices.items }
        ensures pairs { self.new.pairs.items ≡ self.old.pairs.items }
    {
        self.state.back_to(Mark(counts.facts));
        self.choices.truncate(counts.choices as usize);
    }

    /// Keeps so many of the first facts and choices, where no member of a choice was taken and no way of a pair.
    pub fn reopen(&mut self, counts: Counts)
        requires { (name : ℕ → Sum) → counts.facts ≤ length (facts_in name self.old.state) }
        ensures facts { (name : ℕ → Sum) → facts_in name self.new.state ≡ take counts.facts (facts_in name self.old.state) }
        ensures limits { SameLimits self.new.state self.old.state }
        ensures handed { KeepsHanded self.old.state self.new.state }
        ensures choices { choices_of self.new.choices.items ≡ choices_of (take counts.choices self.old.choices.items) }
        ensures pairs { choices_of self.new.pairs.items ≡ choices_of self.old.pairs.items }
        ensures open_still { AreAllOpen self.new }
    {
        self.back_to(counts);
        open_all(&mut self.choices);
        open_all(&mut self.pairs);
    }
}

/// No member of a choice was taken.
fn open_all(choices: &mut Vec<Choice<'_>>)
    ensures members { choices_of choices.new.items ≡ choices_of choices.old.items }
    ensures open_still { All (λ c. c.is_done ≡ false) choices.new.items }
{
    for at in 0..choices.len() {
        set_done(choices, at, false);
    }
}

/// Says of a choice whether a member of it was taken.
pub(crate) fn set_done(choices: &mut Vec<Choice<'_>>, at: usize, is_done: bool)
    requires { at < length choices.old.items }
    ensures { SetsDone choices.old.items at is_done choices.new.items }
{
    let members = choices[at].members;
    choices[at] = Choice { members, is_done };
}
