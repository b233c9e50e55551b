// Objects, and what facts say of them.
ghost use Rattle.std.specs.Prelude.{◌≡◌, ◌↔◌, ℕ, ◌<◌, ◌≤◌, [], ◌∷◌, ◌++◌, false, length, slice_index, take, IfOk, IfSome, IfNone, OnOk, OnErr};
ghost use Rattle.lq_prover_congruence.specs.Classes.Chains.{AllNamed, IsChain, IsName};
ghost use Rattle.lq_prover_congruence.specs.Classes.Steps.{IsSame, terms_of};
ghost use Rattle.lq_prover_proof_tree.specs.Trees.Tree.{Clash};
ghost use Rattle.lq_prover_proof_tree.specs.Trees.TreeView.{clash_of, tag_items};
ghost use Rattle.lq_prover_case.specs.Objects.Joined.{AllObjectsHold, AllWithin, AreOne, IsClash, IsJoined, Says};
ghost use Rattle.lq_prover_case.specs.Objects.Objects.{names, step_of};

use crate::objects::fact::ObjectFact;
use lq_base_names::Binder;
use lq_logic_predicates::{Mark, Symbol};
use lq_prover_congruence::classes::{Classes, Head, Ids, Reasons};
use lq_prover_proof_tree::trees::{CaseProof, Tags};
use std::alloc::{AllocError, Global};
use std::marker::Model;

/// Objects, numbered from 0, with the facts that two of them are one or differ. Each fact has a number of the caller's.
#[derive(Drop)]
pub struct Objects {
    count: u64,
    facts: Vec<ObjectFact>,
    classes: Classes,
}

impl Model for Objects {
    ghost use Rattle.lq_prover_case.specs.Objects.Objects.{Objects, IsObjects};

    ghost Value = { Objects };

    ghost view = { λ s. record { count = s.count; facts = s.facts.items } };

    ghost invariant = { λ s. IsObjects s.count s.facts.items s.classes };
}

impl Objects {
    /// So many objects, and no facts.
    pub fn new(alloc: Global, count: u32) -> Result<Objects, AllocError>
        ensures count { IfOk result (λ s. s.count ≡ count) }
        ensures facts { IfOk result (λ s. s.facts ≡ []) }
    {
        let classes = named(alloc, count)?;
        Ok(Objects {
            count: u64::from(count),
            facts: Vec::new(alloc),
            classes,
        })
    }

    /// How many objects there are.
    pub fn count(&self) -> u64
        ensures { result ≡ self.now.count }
    {
        self.count
    }

    /// Takes the fact of this number: two objects are one, or they differ. After a refusal all is as before.
    pub fn take(&mut self, left: u64, right: u64, one: bool, number: u64) -> Result<(), AllocError>
        requires left_in { left < self.old.count }
        requires right_in { right < self.old.count }
        ensures stands { OnOk result (self.new.facts ≡ self.old.facts
            ++ record { left = left; right = right; one = one; number = number } ∷ []) }
        ensures count { self.new.count ≡ self.old.count }
        ensures refused { OnErr result (self.new.facts ≡ self.old.facts) }
    {
        self.facts.reserve(1)?;
        let fact = ObjectFact {
            left,
            right,
            one,
            number,
        };
        tell(&mut self.classes, fact)?;
        self.facts.push_reserved(fact);
        Ok(())
    }

    /// How many facts stand.
    pub fn mark(&self) -> Mark
        ensures { result.0 ≡ length self.now.facts }
    {
        Mark(self.facts.len() as u64)
    }

    /// Keeps as many of the first facts as stood at the mark.
    pub fn back_to(&mut self, mark: Mark)
        requires { mark.0 ≤ length self.old.facts }
        ensures facts { self.new.facts ≡ take mark.0 self.old.facts }
        ensures count { self.new.count ≡ self.old.count }
    {
        let names = self.classes.mark().0 - self.facts.len() as u64;
        self.classes.back_to(Mark(names + mark.0));
        self.facts.truncate(mark.0 as usize);
    }

    /// The numbers of facts that join two objects, and None where no facts do.
    pub fn joined(&self, alloc: Global, left: u64, right: u64) -> Result<Option<Tags>, AllocError>
        requires left_in { left < self.now.count }
        requires right_in { right < self.now.count }
        ensures some { IfOk result (λ found. IfSome found (λ tags. IsJoined self.now.facts (tag_items tags)
            left right)) }
        ensures none { IfOk result (λ found. IfNone found (AreOne self.now.facts left right → ⊥)) }
    {
        if self.classes.same(left, right) {
            Ok(Some(chain(alloc, &self.classes, left, right)?))
        } else {
            Ok(None)
        }
    }

    /// A fact that two objects differ, with the numbers of facts that join them, and None exactly where there is no such fact. It looks
    /// at each fact.
    pub fn clash(&self, alloc: Global) -> Result<Option<CaseProof>, AllocError>
        ensures some { IfOk result (λ found. IfSome found (λ p. IsClash self.now.facts (clash_of p))) }
        ensures none { IfOk result (λ found. IfNone found ((clash : Clash) → IsClash self.now.facts clash → ⊥)) }
    {
        match false_difference(&self.classes, &self.facts) {
            Some(fact) => {
                let tags = chain(alloc, &self.classes, fact.left, fact.right)?;
                Ok(Some(CaseProof::Merges(fact.number, tags)))
            }
            None => Ok(None),
        }
    }

    /// The class of each object: two have one class exactly where facts join them. Where no facts clash, the classes give each fact its
    /// truth.
    pub fn classes(&self) -> &[u64]
        ensures each { length result.now ≡ self.now.count }
        ensures one { (a b : ℕ) → a < self.now.count → b < self.now.count
            → (slice_index result.now a ≡ slice_index result.now b) ↔ AreOne self.now.facts a b }
        ensures holds { ((clash : Clash) → IsClash self.now.facts clash → ⊥)
            → AllObjectsHold (λ a. slice_index result.now a) self.now.facts }
    {
        self.classes.labels()
    }
}

/// So many names, and no steps.
fn named(alloc: Global, count: u32) -> Result<Classes, AllocError>
    ensures { IfOk result (λ classes. classes ≡ names 0 count) }
{
    let mut classes = Classes::new(alloc)?;
    let no_arguments = Ids::new(alloc)?;
    for object in 0..count {
        classes.add_term(Head::Symbol(Symbol::Bound(Binder(object))), &no_arguments)?;
    }
    Ok(classes)
}

/// Tells the classes what a fact says.
fn tell(classes: &mut Classes, fact: ObjectFact) -> Result<(), AllocError>
    requires left_in { fact.left < length (terms_of classes.old) }
    requires right_in { fact.right < length (terms_of classes.old) }
    ensures ok { OnOk result (classes.new ≡ classes.old ++ step_of fact ∷ []) }
    ensures err { OnErr result (classes.new ≡ classes.old) }
{
    if fact.one {
        classes.merge(fact.left, fact.right, fact.number)
    } else {
        classes.differ(fact.left, fact.right)
    }
}

/// The first fact that two objects differ which are the same.
fn false_difference(classes: &Classes, facts: &[ObjectFact]) -> Option<ObjectFact>
    requires { AllWithin (length (terms_of classes.now)) facts.now }
    ensures some { IfSome result (λ f. (f.one ≡ false) × Says facts.now f.left f.right false f.number
        × IsSame classes.now f.left f.right) }
    ensures none { IfNone result ((a b t : ℕ) → Says facts.now a b false t → IsSame classes.now a b → ⊥) }
{
    for fact in facts {
        if !fact.one && classes.same(fact.left, fact.right) {
            return Some(*fact);
        }
    }
    None
}

/// The reasons of merges that lead from one name to another.
fn chain(alloc: Global, classes: &Classes, left: u64, right: u64) -> Result<Tags, AllocError>
    requires merges { AllNamed classes.now }
    requires left_name { IsName classes.now left }
    requires right_name { IsName classes.now right }
    requires same { IsSame classes.now left right }
    ensures { IfOk result (λ tags. IsChain classes.now left right (tag_items tags)) }
{
    let reasons = classes.why(alloc, left, right)?;
    tags_of(alloc, &reasons)
}

/// Reasons as tags.
fn tags_of(alloc: Global, reasons: &Reasons) -> Result<Tags, AllocError>
    ensures { IfOk result (λ tags. tag_items tags ≡ reasons.now) }
{
    let mut tags = Tags::new(alloc)?;
    let mut at = 0;
    while let Some(reason) = reasons.get(at) {
        tags.push(*reason)?;
        at += 1;
    }
    Ok(tags)
}
