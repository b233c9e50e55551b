// The classes as callers see them.
ghost use Rattle.std.specs.Prelude.{◌≡◌, ◌⊎◌, ◌↔◌, ℕ, ◌<◌, ◌≤◌, [], ◌∷◌, ◌++◌, length, slice_index, take, IfOk, IfSome, IfNone, OnOk, OnErr, IsTrue};
ghost use Rattle.lq_prover_congruence.specs.Classes.Chains.{AllNamed, IsChain, IsName};
ghost use Rattle.lq_prover_congruence.specs.Classes.Core.{AllBelow};
ghost use Rattle.lq_prover_congruence.specs.Classes.Implied.{HaveOne, IsImplied, pair_times};
ghost use Rattle.lq_prover_congruence.specs.Classes.Steps.{IsDifference, IsNamed, IsSame, IsTerm, terms_of};
ghost use Rattle.lq_prover_congruence.specs.declared.classes.steps.Step.TheVariants.{Added, Merged, Differed};

use crate::classes::differing::first_clash;
use crate::classes::forest::Forest;
use crate::classes::head::Head;
use crate::classes::ids::Ids;
use crate::classes::implied::Implied;
use crate::classes::pair_list::Pairs;
use crate::classes::reasons::Reasons;
use crate::classes::state::State;
use crate::classes::steps::Pair;
use crate::classes::table::Key;
use lq_logic_predicates::Mark;
use std::alloc::{AllocError, Global};
use std::marker::Model;

/// Terms in classes: the least congruence over the merges that stand. Seen as the list of the steps that
/// stand.
#[derive(Drop)]
pub struct Classes {
    state: State,
    forest: Forest,
}

impl Model for Classes {
    ghost use Rattle.std.specs.Prelude.{List};
    ghost use Rattle.lq_prover_congruence.specs.declared.classes.steps.Step.{Step};
    ghost use Rattle.lq_prover_congruence.specs.Classes.Standing.{steps_of};
    ghost use Rattle.lq_prover_congruence.specs.Classes.Whole.{IsWhole};

    ghost Value = { List Step };

    ghost view = { λ c. steps_of c.state.trail.items };

    ghost invariant = { λ c. IsWhole c.state c.forest };
}

impl Classes {
    /// No terms.
    pub fn new(alloc: Global) -> Result<Classes, AllocError>
        ensures { IfOk result (λ classes. classes ≡ []) }
    {
        Ok(Classes {
            state: State::new(alloc)?,
            forest: Forest::new(alloc),
        })
    }

    /// The number of the term with this head and these arguments, which is added where there is none.
    pub fn add_term(&mut self, head: Head, args: &Ids) -> Result<u64, AllocError>
        requires known { AllBelow (length (terms_of self.old)) args.now }
        requires symbol { IsNamed head → args.now ≡ [] }
        ensures ok { IfOk result (λ term. (self.new ≡ self.old × IsTerm self.old term (head, args.now))
            ⊎ ((self.new ≡ self.old ++ Added head args.now ∷ []) × (term ≡ length (terms_of self.old))
            × ((i : ℕ) → IsTerm self.old i (head, args.now) → ⊥))) }
        ensures err { OnErr result (self.new ≡ self.old) }
    {
        let key = Key {
            head,
            args: args.to_vec(self.state.alloc)?,
        };
        if let Some(term) = self.state.known.find(&key) {
            return Ok(term);
        }
        let term = self.len();
        let args = args.copy(self.state.alloc)?;
        self.state.add_new(key, args)?;
        Ok(term)
    }

    /// Makes two terms the same, for a reason of the caller's.
    pub fn merge(&mut self, a: u64, b: u64, reason: u64) -> Result<(), AllocError>
        requires a_in { a < length (terms_of self.old) }
        requires b_in { b < length (terms_of self.old) }
        ensures ok { OnOk result (self.new ≡ self.old ++ Merged a b reason ∷ []) }
        ensures err { OnErr result (self.new ≡ self.old) }
    {
        let step = self.state.steps;
        self.forest.note(&self.state, a, b, reason)?;
        if let Err(refused) = self.state.merge(a, b, reason) {
            self.forest.back_to(step);
            return Err(refused);
        }
        Ok(())
    }

    /// Says that two terms differ. Whether they can is what `conflict` answers.
    pub fn differ(&mut self, a: u64, b: u64) -> Result<(), AllocError>
        requires a_in { a < length (terms_of self.old) }
        requires b_in { b < length (terms_of self.old) }
        ensures ok { OnOk result (self.new ≡ self.old ++ Differed a b ∷ []) }
        ensures err { OnErr result (self.new ≡ self.old) }
    {
        self.state.differ(a, b)
    }

    /// How many terms there are.
    pub fn len(&self) -> u64
        ensures { result ≡ length (terms_of self.now) }
    {
        self.state.known.len() as u64
    }

    /// Whether two terms are the same.
    pub fn same(&self, a: u64, b: u64) -> bool
        requires a_in { a < length (terms_of self.now) }
        requires b_in { b < length (terms_of self.now) }
        ensures { IsTrue result ↔ IsSame self.now a b }
    {
        self.state.labels[a as usize] == self.state.labels[b as usize]
    }

    /// The label of each term: two terms are the same exactly where their labels are one.
    pub fn labels(&self) -> &[u64]
        ensures each { length result.now ≡ length (terms_of self.now) }
        ensures same { (a b : ℕ) → a < length (terms_of self.now) → b < length (terms_of self.now)
            → (slice_index result.now a ≡ slice_index result.now b) ↔ IsSame self.now a b }
    {
        self.state.labels.as_slice()
    }

    /// Two terms that were told to differ and are the same. It looks at each step.
    pub fn conflict(&self) -> Option<Pair>
        ensures some { IfSome result (λ p. IsDifference self.now p.left p.right
            × IsSame self.now p.left p.right) }
        ensures none { IfNone result ((a b : ℕ) → IsDifference self.now a b → IsSame self.now a b → ⊥) }
    {
        first_clash(&self.state.trail, &self.state.labels)
    }

    /// Whether a term is a name.
    pub fn is_name(&self, term: u64) -> bool
        requires { term < length (terms_of self.now) }
        ensures { IsTrue result ↔ IsName self.now term }
    {
        self.state.is_name(term)
    }

    /// Whether all merges are of names. It looks at each step.
    pub fn merges_names(&self) -> bool
        ensures { IsTrue result ↔ AllNamed self.now }
    {
        self.state.merges_names()
    }

    /// The reasons of merges that lead from one term to another of its class, where all merges are of names.
    /// None where the two are one.
    pub fn why(&self, alloc: Global, a: u64, b: u64) -> Result<Reasons, AllocError>
        requires merges { AllNamed self.now }
        requires a_name { IsName self.now a }
        requires b_name { IsName self.now b }
        requires same { IsSame self.now a b }
        ensures chain { IfOk result (λ reasons. IsChain self.now a b reasons) }
        ensures none { IfOk result (λ reasons. a ≡ b → reasons ≡ []) }
    {
        if a == b {
            return Reasons::new(alloc);
        }
        let reasons = self.forest.way(alloc, a, b)?;
        Ok(Reasons::of(reasons))
    }

    /// The pairs of applications of one head whose arguments are the same. It looks at the pairs of each
    /// class.
    pub fn implied(&self) -> Implied<'_>
        ensures each { (i j : ℕ) → (0 < pair_times i j result) ↔ IsImplied self.now i j }
        ensures once { (i j : ℕ) → pair_times i j result ≤ 1 }
    {
        Implied {
            state: &self.state,
            count: self.state.rings.len(),
            left: 0,
            walk: None,
        }
    }

    /// Each application for which another one of its class stands, behind that one: pairs as `implied` gives,
    /// at most as many as terms, by which any two that `implied` gives hang together.
    pub fn representatives(&self, alloc: Global) -> Result<Pairs, AllocError>
        ensures each { IfOk result (λ pairs. (i j : ℕ) → 0 < pair_times i j pairs
            → IsImplied self.now i j ⊎ IsImplied self.now j i) }
        ensures all { IfOk result (λ pairs. (i j : ℕ) → IsImplied self.now i j → HaveOne pairs i j) }
        ensures few { IfOk result (λ pairs. length pairs ≤ length (terms_of self.now)) }
    {
        let pairs = self.state.representatives(alloc)?;
        Ok(pairs)
    }

    /// Takes back the last steps, until as many stand as when the mark was made.
    pub fn back_to(&mut self, mark: Mark)
        requires { mark.0 ≤ length self.old }
        ensures { self.new ≡ take mark.0 self.old }
    {
        self.state.back_to(mark.0);
        self.forest.back_to(mark.0);
    }

    /// How many steps stand.
    pub fn mark(&self) -> Mark
        ensures { result.0 ≡ length self.now }
    {
        Mark(self.state.steps)
    }
}
