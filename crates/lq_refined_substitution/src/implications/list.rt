// Lists of implications with the environments that they share.
ghost use Rattle.std.specs.Prelude.{◌≡◌, ◌<◌, ◌^◌, All, length, min};
ghost use Rattle.lq_refined_substitution.specs.Environments.Whole.{environments_of};
ghost use Rattle.lq_refined_substitution.specs.Substitution.Numbered.{AreNumbered};
ghost use Rattle.lq_refined_substitution.specs.Implications.Placed.{IsPlaced};

use crate::environments::Environments;
use crate::implications::hypotheses::Hypotheses;
use crate::implications::implication::{Implication, Reason};
use crate::substitution::{Part, Parts};
use lq_base_names::Place;
use std::alloc::{AllocError, Global};

/// No list has more implications.
pub const IMPLICATION_LIMIT: usize = 262144;

/// Implications in order, and the environments that they share, numbered from 0: the first is empty, and each other one has the hypotheses of
/// an earlier one and one more. Past the limit implications are counted and not kept.
#[derive(Drop)]
pub struct Implications {
    pub(crate) environments: Environments,
    pub(crate) parts: Vec<Part>,
    pub(crate) items: Vec<Implication>,
    pub(crate) count: u64,
    ghost numbered: { AreNumbered (length parts.items) (environments_of environments) },
    ghost placed: { All (IsPlaced (length (environments_of environments))) items.items },
    ghost counted: { length items.items ≡ min count 262144 },
    ghost small: { count < 2 ^ 64 },
}

impl Implications {
    ghost use Rattle.std.specs.Prelude.{◌≡◌, ◌<◌, ◌≤◌, ◌+◌, ◌-◌, ◌^◌, [], ◌∷◌, ◌++◌, IfSome, length, map, min, take, slice_get, IfOk, OnOk, OnErr, MatchOption};
    ghost use Rattle.std.specs.Option.{option_copied};
    ghost use Rattle.lq_refined_types.specs.Subtyping.Implication.{goals};
    ghost use Rattle.lq_refined_substitution.specs.Substitution.Views.{part_view, parts_view};
    ghost use Rattle.lq_refined_substitution.specs.Implications.Growing.{Continues};
    ghost use Rattle.lq_refined_substitution.specs.Implications.Views.{count_of, environment_at, environment_lists, hypotheses_left, implication_items, implication_view, implications_of, origin_view};

    /// No implications, and the empty environment alone.
    pub fn new(alloc: Global) -> Result<Implications, AllocError>
        ensures environments { IfOk result (λ all. environment_lists all ≡ [] ∷ []) }
        ensures implications { IfOk result (λ all. implications_of all ≡ []) }
        ensures count { IfOk result (λ all. count_of all ≡ 0) }
    {
        Ok(Implications {
            environments: Environments::new(alloc)?,
            parts: Vec::new(alloc),
            items: Vec::new(alloc),
            count: 0,
        })
    }

    /// How many environments there are.
    pub fn env_count(&self) -> u64
        ensures { result ≡ length (environment_lists self.now) }
    {
        self.environments.len()
    }

    /// The environment of a number: the one whose hypotheses it has, and the last one behind them; None of an empty one.
    pub fn environment(&self, at: u64) -> Option<(u64, &Part)>
        requires { at < length (environment_lists self.now) }
        ensures hypotheses { MatchOption result (environment_at self.now at ≡ [])
            (λ e. environment_at self.now at ≡ environment_at self.now e.0 ++ part_view e.1.now ∷ []) }
        ensures earlier { IfSome result (λ e. e.0 < at) }
    {
        match self.environments.last(at) {
            Some(last) => Some((last.parent, &self.parts[last.part as usize])),
            None => None,
        }
    }

    /// Adds an environment with the parent's hypotheses and this one behind them, and answers its number.
    pub fn add_env(&mut self, parent: u64, part: Part) -> Result<u64, AllocError>
        requires { parent < length (environment_lists self.old) }
        ensures added { OnOk result (environment_lists self.new ≡ environment_lists self.old
            ++ (environment_at self.old parent ++ part_view part ∷ []) ∷ []) }
        ensures number { IfOk result (λ at. at ≡ length (environment_lists self.old)) }
        ensures kept { OnErr result (environment_lists self.new ≡ environment_lists self.old) }
        ensures implications { implications_of self.new ≡ implications_of self.old }
        ensures count { count_of self.new ≡ count_of self.old }
    {
        let number = self.parts.len() as u64;
        self.parts.push(part)?;
        let added = self.environments.add(parent, number)?;
        Ok(added)
    }

    /// Adds an implication behind the others, where there are fewer than the limit, and counts it. Where memory is refused, all stays as it
    /// was.
    pub fn push(&mut self, implication: Implication) -> Result<(), AllocError>
        requires { implication.env < length (environment_lists self.old) }
        ensures added { OnOk result (implications_of self.new ≡ take 262144
            (implications_of self.old ++ implication_view (environment_lists self.old) implication ∷ [])) }
        ensures counted { OnOk result (count_of self.new ≡ min (count_of self.old + 1) (2 ^ 64 - 1)) }
        ensures kept { OnErr result (implications_of self.new ≡ implications_of self.old) }
        ensures uncounted { OnErr result (count_of self.new ≡ count_of self.old) }
        ensures environments { environment_lists self.new ≡ environment_lists self.old }
    {
        if self.items.len() < IMPLICATION_LIMIT {
            self.items.push(implication)?;
            self.count += 1;
            return Ok(());
        }
        self.count = self.count.saturating_add(1);
        drop_past(implication);
        Ok(())
    }

    /// How many implications there are.
    pub fn len(&self) -> usize
        ensures len { result ≡ length (implications_of self.now) }
        ensures limit { result ≤ 262144 }
    {
        self.items.len()
    }

    /// How many implications there would be without a limit.
    pub fn count(&self) -> u64
        ensures count { result ≡ count_of self.now }
        ensures whole { count_of self.now ≤ 262144 → length (implications_of self.now) ≡ count_of self.now }
    {
        self.count
    }

    /// The implication at an index, and None past the last one.
    pub fn get(&self, at: usize) -> Option<&Implication>
        ensures { option_copied result ≡ slice_get (implication_items self.now) at }
    {
        self.items.get(at)
    }

    /// The hypotheses of an implication, to be taken from the last to the first. Of one that isn't there, there are none.
    pub fn hypotheses(&self, at: u32) -> Hypotheses<'_>
        ensures { MatchOption (slice_get (implications_of self.now) at) (hypotheses_left result ≡ [])
            (λ i. hypotheses_left result ≡ i.hypotheses ++ i.left) }
    {
        let Some(implication) = self.items.get(at as usize) else {
            return self.no_hypotheses();
        };
        Hypotheses {
            all: self,
            env: implication.env,
            left: implication.left.as_slice(),
        }
    }

    // No hypotheses.
    fn no_hypotheses(&self) -> Hypotheses<'_>
        ensures { hypotheses_left result ≡ [] }
    {
        Hypotheses {
            all: self,
            env: 0,
            left: &[],
        }
    }

    // Adds an implication whose goal is this part, where that isn't written `true`.
    fn imply_one(
        &mut self,
        alloc: Global,
        env: u64,
        left: &Parts,
        goal: &Part,
        origin: (Place, Reason),
    ) -> Result<(), AllocError>
        requires { env < length (environment_lists self.old) }
        ensures added { OnOk result (implications_of self.new ≡ take 262144 (implications_of self.old
            ++ goals (environment_at self.old env) (parts_view left.now) (part_view goal.now ∷ [])
            (origin_view origin.0 origin.1))) }
        ensures counted { OnOk result (count_of self.new ≡ min (count_of self.old
            + length (goals (environment_at self.old env) (parts_view left.now) (part_view goal.now ∷ [])
            (origin_view origin.0 origin.1))) (2 ^ 64 - 1)) }
        ensures continues { Continues self.old self.new }
        ensures environments { environment_lists self.new ≡ environment_lists self.old }
    {
        if goal.is_truth() {
            return Ok(());
        }
        let left = left.copy(alloc)?;
        let goal = goal.copy(alloc)?;
        self.push(Implication {
            env,
            left,
            goal,
            place: origin.0,
            reason: origin.1,
        })
    }

    /// Adds one implication for each part on the right, but none for a part that is written `true`. Where memory is refused, some of them may
    /// stand there, behind those that there were.
    pub fn imply(
        &mut self,
        alloc: Global,
        env: u64,
        left: &Parts,
        right: &[Part],
        origin: (Place, Reason),
    ) -> Result<(), AllocError>
        requires { env < length (environment_lists self.old) }
        ensures added { OnOk result (implications_of self.new ≡ take 262144 (implications_of self.old
            ++ goals (environment_at self.old env) (parts_view left.now) (map part_view right.now)
            (origin_view origin.0 origin.1))) }
        ensures counted { OnOk result (count_of self.new ≡ min (count_of self.old
            + length (goals (environment_at self.old env) (parts_view left.now) (map part_view right.now)
            (origin_view origin.0 origin.1))) (2 ^ 64 - 1)) }
        ensures continues { Continues self.old self.new }
        ensures environments { environment_lists self.new ≡ environment_lists self.old }
    {
        for goal in right {
            self.imply_one(alloc, env, left, goal, origin)?;
        }
        Ok(())
    }
}

// Lets an implication past the limit go.
fn drop_past(_implication: Implication) {}
