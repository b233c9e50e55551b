// The state of one path.
ghost use Rattle.std.specs.Prelude.{◌≡◌, ◌↔◌, ◌+◌, ◌^◌, ℕ, ◌<◌, ◌≤◌, List, ◌∷◌, [], ◌++◌, true, IfOk, IfErr, IfSome, IfNone, OnOk, OnErr, length, slice_index, take};
ghost use Rattle.lq_prover_proof_tree.specs.Trees.Path.{flag_fact, objects_fact, row_fact};
ghost use Rattle.lq_prover_proof_tree.specs.Trees.Proves.{AreJoined, Clashes, rows_among};
ghost use Rattle.lq_prover_proof_tree.specs.Trees.TreeView.{clash_of, tag_items};
ghost use Rattle.lq_prover_differences.specs.Stops.{StopsBy};
ghost use Rattle.lq_prover_differences.specs.Table.{constants};
ghost use Rattle.lq_logic_rows.specs.Contradiction.{Solves};
ghost use Rattle.lq_logic_rows.specs.Difference.{TermsBelow};
ghost use Rattle.lq_logic_rows.specs.Near.{IsNear};
ghost use Rattle.lq_logic_rows.specs.Row.{Row};
ghost use Rattle.lq_base_numbers.specs.Fractions.Value.{value_of};
ghost use Rattle.lq_prover_case.specs.State.Flags.{clash_after, find_given};
ghost use Rattle.lq_prover_proof_tree.specs.Trees.Tree.{Clash};
ghost use Rattle.lq_prover_case.specs.Objects.Joined.{AreOne, IsClash};
ghost use Rattle.lq_logic_predicates.specs.Sum.{Sum};
ghost use Rattle.lq_prover_case.specs.State.PathState.{AllFlagsHold, AllObjectsHold, HandsMore, HasHanded, HasStops, IsByFlags, IsByRows, KeepsHanded, NoObjectsClash, facts_in, objects_in};
ghost use Rattle.lq_prover_case.specs.State.RowState.{AreDifferences, AreValuesBy, is_solved, row_point, terms_of};
ghost use Rattle.lq_prover_case.specs.State.Stored.{Stands};

use crate::objects::{Objects, objects_say_what_facts_say};
use crate::state::flags::{FlagClash, Given, give, giver_of};
use crate::state::rows::LinearRows;
use indexmap::IndexMap;
use lq_base_numbers::fractions::Frac;
use lq_logic_predicates::Symbol;
use lq_logic_rows::{LinearRow, LinearStop, Mark};
use lq_prover_proof_tree::trees::{CaseProof, Multipliers, Tags};
use std::alloc::{AllocError, Global};
use std::marker::Model;

/// What a fact is. The rows stand apart.
#[derive(Clone, Copy)]
pub(crate) enum Kind {
    Row,
    Flag(Symbol, bool),
    /// Whether two objects are one.
    Same(u64, u64, bool),
}

/// A fact, and what stood before it.
#[derive(Clone, Copy)]
pub(crate) struct Step {
    pub(crate) kind: Kind,
    pub(crate) rows: u64,
    pub(crate) flags: usize,
    pub(crate) objects: u64,
    pub(crate) clash: Option<FlagClash>,
}

/// The facts of a path, which come and go, with what is known of them: its rows in both engines, for each flag the first fact that
/// gives it a value, and the objects in classes. Facts are numbered from 1, objects from 0.
#[derive(Drop)]
pub struct PathState {
    alloc: Global,
    steps: Vec<Step>,
    rows: LinearRows,
    flags: IndexMap<Symbol, Given>,
    objects: Objects,
    /// The first clash of flags.
    clash: Option<FlagClash>,
}

impl Model for PathState {
    ghost use Rattle.lq_prover_case.specs.State.PathState.{PathState, IsState};

    ghost Value = { PathState };

    ghost view = { λ s. record { steps = s.steps.items; rows = s.rows; flags = s.flags.entries; objects = s.objects } };

    ghost invariant = { λ s. IsState s.steps.items s.rows.rows s.flags.entries s.clash s.objects.facts };
}

impl PathState {
    /// No facts, and so many objects; rows are over the terms below `terms`, and a check makes at most `pivots` pivots.
    pub fn new(
        alloc: Global,
        terms: u64,
        pivots: u64,
        objects: u32,
    ) -> Result<PathState, AllocError>
        ensures facts { IfOk result (λ s. (name : ℕ → Sum) → facts_in name s ≡ []) }
        ensures limits { IfOk result (λ s. (terms_of s.rows ≡ terms) × (s.rows.pivots ≡ pivots)
            × (s.objects.count ≡ objects)) }
        ensures handed { IfOk result (λ s. HasHanded s []) }
    {
        let objects = Objects::new(alloc, objects)?;
        Ok(PathState {
            alloc,
            steps: Vec::new(alloc),
            rows: LinearRows::new(alloc, terms, pivots)?,
            flags: IndexMap::new(alloc),
            objects,
            clash: None,
        })
    }

    /// Takes a row as the next fact. Where the difference rows have a conflict with it, it is the answer, and the fact stands all the
    /// same. After a refusal the facts are as before.
    pub fn take_row(&mut self, row: &LinearRow) -> Result<Option<CaseProof>, LinearStop>
        requires { TermsBelow (terms_of self.old.rows) row.now.parts }
        ensures stands { OnOk result ((name : ℕ → Sum) → facts_in name self.new
            ≡ facts_in name self.old ++ row_fact row.now ∷ []) }
        ensures refused { OnErr result ((name : ℕ → Sum) → facts_in name self.new ≡ facts_in name self.old) }
        ensures objects { objects_in self.new ≡ objects_in self.old }
        ensures limits { (terms_of self.new.rows ≡ terms_of self.old.rows)
            × (self.new.rows.pivots ≡ self.old.rows.pivots) × (self.new.objects.count ≡ self.old.objects.count) }
        ensures clash { IfOk result (λ clash. IfSome clash (λ p. (name : ℕ → Sum)
            → Clashes (facts_in name self.new) (clash_of p))) }
        ensures handed { KeepsHanded self.old self.new }
        ensures stop { IfErr result (λ stop. (name : ℕ → Sum) → StopsBy (constants
            (rows_among (facts_in name self.old ++ row_fact row.now ∷ []))) stop) }
    {
        let Ok(()) = self.steps.reserve(1) else {
            return Err(LinearStop::Memory);
        };
        let step = Step {
            kind: Kind::Row,
            rows: self.rows.mark().0,
            flags: self.flags.len(),
            objects: self.objects.mark().0,
            clash: self.clash,
        };
        let number = self.steps.len() as u64 + 1;
        let clash = self.rows.take_row(row, number)?;
        self.steps.push_reserved(step);
        Ok(by_rows(clash))
    }

    /// Takes as the next fact that a flag has a value. Where another fact gives it the other one, this is the answer, and the fact
    /// stands all the same. After a refusal the facts are as before.
    pub fn take_flag(&mut self, flag: Symbol, value: bool) -> Result<Option<CaseProof>, AllocError>
        ensures stands { OnOk result ((name : ℕ → Sum) → facts_in name self.new
            ≡ facts_in name self.old ++ flag_fact flag value ∷ []) }
        ensures refused { OnErr result ((name : ℕ → Sum) → facts_in name self.new ≡ facts_in name self.old) }
        ensures objects { objects_in self.new ≡ objects_in self.old }
        ensures limits { (terms_of self.new.rows ≡ terms_of self.old.rows)
            × (self.new.rows.pivots ≡ self.old.rows.pivots) × (self.new.objects.count ≡ self.old.objects.count) }
        ensures handed { KeepsHanded self.old self.new }
        ensures clash { IfOk result (λ clash. IfSome clash (λ p. (name : ℕ → Sum)
            → Clashes (facts_in name self.new) (clash_of p))) }
    {
        self.steps.reserve(1)?;
        let step = Step {
            kind: Kind::Flag(flag, value),
            rows: self.rows.mark().0,
            flags: self.flags.len(),
            objects: self.objects.mark().0,
            clash: self.clash,
        };
        let number = self.steps.len() as u64 + 1;
        let other = give(&mut self.flags, flag, value, number)?;
        self.steps.push_reserved(step);
        self.clash = known(self.clash, other, number);
        Ok(by_flags(other, number))
    }

    /// Takes as the next fact that two objects are one, or that they differ. Where it makes two objects that differ one, this is the answer,
    /// and the fact stands all the same. After a refusal the facts are as before.
    pub fn take_same(
        &mut self,
        left: u64,
        right: u64,
        one: bool,
    ) -> Result<Option<CaseProof>, AllocError>
        requires left_in { left < self.old.objects.count }
        requires right_in { right < self.old.objects.count }
        ensures stands { OnOk result ((name : ℕ → Sum) → facts_in name self.new
            ≡ facts_in name self.old ++ objects_fact (name left) (name right) one ∷ []) }
        ensures refused { OnErr result ((name : ℕ → Sum) → facts_in name self.new ≡ facts_in name self.old) }
        ensures told { OnOk result (objects_in self.new ≡ objects_in self.old
            ++ record { left = left; right = right; one = one; number = length self.old.steps + 1 } ∷ []) }
        ensures limits { (terms_of self.new.rows ≡ terms_of self.old.rows)
            × (self.new.rows.pivots ≡ self.old.rows.pivots) × (self.new.objects.count ≡ self.old.objects.count) }
        ensures handed { KeepsHanded self.old self.new }
        ensures clash { IfOk result (λ clash. IfSome clash (λ p. (name : ℕ → Sum)
            → Clashes (facts_in name self.new) (clash_of p))) }
        ensures apart { IfOk result (λ clash. IfNone clash (NoObjectsClash self.new)) }
    {
        self.steps.reserve(1)?;
        let step = Step {
            kind: Kind::Same(left, right, one),
            rows: self.rows.mark().0,
            flags: self.flags.len(),
            objects: self.objects.mark().0,
            clash: self.clash,
        };
        let number = self.steps.len() as u64 + 1;
        let clash = tell(self.alloc, &mut self.objects, left, right, one, number)?;
        self.steps.push_reserved(step);
        objects_say_what_facts_say();
        Ok(clash)
    }

    /// How many facts stand.
    pub fn mark(&self) -> Mark
        ensures { (name : ℕ → Sum) → result.0 ≡ length (facts_in name self.now) }
    {
        Mark(self.steps.len() as u64)
    }

    /// Keeps as many of the first facts as stood at the mark.
    pub fn back_to(&mut self, mark: Mark)
        requires { (name : ℕ → Sum) → mark.0 ≤ length (facts_in name self.old) }
        ensures facts { (name : ℕ → Sum) → facts_in name self.new ≡ take mark.0 (facts_in name self.old) }
        ensures limits { (terms_of self.new.rows ≡ terms_of self.old.rows)
            × (self.new.rows.pivots ≡ self.old.rows.pivots) × (self.new.objects.count ≡ self.old.objects.count) }
        ensures handed { KeepsHanded self.old self.new }
    {
        let count = mark.0 as usize;
        if let Some(step) = self.steps.get(count) {
            let flags = step.flags;
            let objects = step.objects;
            self.clash = step.clash;
            self.rows.back_to(Mark(step.rows));
            self.flags.truncate(flags);
            self.objects.back_to(Mark(objects));
            self.steps.truncate(count);
        }
    }

    /// A clash of the facts, or None where values solve all rows, each flag has one value, and no two objects that differ are one.
    pub fn check(&mut self) -> Result<Option<CaseProof>, LinearStop>
        ensures facts { (name : ℕ → Sum) → facts_in name self.new ≡ facts_in name self.old }
        ensures objects { objects_in self.new ≡ objects_in self.old }
        ensures limits { (terms_of self.new.rows ≡ terms_of self.old.rows)
            × (self.new.rows.pivots ≡ self.old.rows.pivots) × (self.new.objects.count ≡ self.old.objects.count) }
        ensures some { IfOk result (λ clash. IfSome clash (λ p. (name : ℕ → Sum)
            → Clashes (facts_in name self.new) (clash_of p))) }
        ensures solves { IfOk result (λ clash. IfNone clash ((is_solved self.new.rows ≡ true)
            × ((name : ℕ → Sum) → Solves (row_point self.new.rows) (rows_among (facts_in name self.new))))) }
        ensures flags { IfOk result (λ clash. IfNone clash ((name : ℕ → Sum)
            → AllFlagsHold self.new.flags (facts_in name self.new))) }
        ensures apart { IfOk result (λ clash. IfNone clash (NoObjectsClash self.new)) }
        ensures handed { (name : ℕ → Sum) → HandsMore (Stands (rows_among (facts_in name self.old))) self.old self.new }
        ensures stop { IfErr result (λ stop. (name : ℕ → Sum) (ever : List Row) → HasHanded self.old ever
            → HasStops (terms_of self.old.rows) self.old.rows.pivots ever
            (Stands (rows_among (facts_in name self.old))) (facts_in name self.old) stop) }
    {
        if let Some(clash) = self.clash {
            return Ok(Some(CaseProof::Flags(clash.first, clash.second)));
        }
        let Ok(clash) = self.objects_clash() else {
            return Err(LinearStop::Memory);
        };
        if let Some(clash) = clash {
            return Ok(Some(clash));
        }
        let found = self.rows.check()?;
        Ok(by_rows(found))
    }

    /// A clash of the facts about objects.
    fn objects_clash(&self) -> Result<Option<CaseProof>, AllocError>
        ensures some { IfOk result (λ clash. IfSome clash (λ p. (name : ℕ → Sum)
            → Clashes (facts_in name self.now) (clash_of p))) }
        ensures none { IfOk result (λ clash. IfNone clash (NoObjectsClash self.now)) }
    {
        objects_say_what_facts_say();
        let clash = self.objects.clash(self.alloc)?;
        Ok(clash)
    }

    /// Where all rows are difference rows, the values that solve them are whole numbers, and none of them and no difference of two is
    /// larger in size than the sizes of the constants sum to.
    pub fn values_are_near(&self)
        requires { is_solved self.now.rows ≡ true }
        ensures { (name : ℕ → Sum) → AreDifferences (rows_among (facts_in name self.now)) → IsNear
            (constants (rows_among (facts_in name self.now))) (terms_of self.now.rows) (row_point self.now.rows) }
    {
        self.rows.values_are_near();
    }

    /// The values that solve the rows are those of a configuration of the tableau, or whole numbers that are near by the sizes of the
    /// constants.
    pub fn values_are_placed(&self)
        requires { is_solved self.now.rows ≡ true }
        ensures { (name : ℕ → Sum) (ever : List Row) → HasHanded self.now ever → AreValuesBy (terms_of self.now.rows) ever
            (rows_among (facts_in name self.now)) (row_point self.now.rows) }
    {
        self.rows.values_are_placed();
    }

    /// Fewer than 2^63 facts stand.
    pub fn facts_are_few(&self)
        ensures { (name : ℕ → Sum) → length (facts_in name self.now) < 2 ^ 63 }
    {
        let _ = self.steps.len();
    }

    /// The value of a term, where values are known that solve the rows.
    pub fn value(&self, term: u64) -> Frac
        requires { is_solved self.now.rows ≡ true }
        ensures { value_of result ≡ row_point self.now.rows term }
    {
        self.rows.value(term)
    }

    /// The numbers of facts that join two objects, and None where no facts do.
    pub fn joined(&self, left: u64, right: u64) -> Result<Option<Tags>, AllocError>
        requires left_in { left < self.now.objects.count }
        requires right_in { right < self.now.objects.count }
        ensures some { IfOk result (λ found. IfSome found (λ tags. (name : ℕ → Sum)
            → AreJoined (facts_in name self.now) (tag_items tags) (name left) (name right))) }
        ensures none { IfOk result (λ found. IfNone found (AreOne (objects_in self.now) left right → ⊥)) }
    {
        objects_say_what_facts_say();
        let found = self.objects.joined(self.alloc, left, right)?;
        Ok(found)
    }

    /// The class of each object: two have one class exactly where facts join them. Where no objects clash, the classes give each fact about
    /// objects its truth.
    pub fn classes(&self) -> &[u64]
        ensures each { length result.now ≡ self.now.objects.count }
        ensures one { (a b : ℕ) → a < self.now.objects.count → b < self.now.objects.count
            → (slice_index result.now a ≡ slice_index result.now b) ↔ AreOne (objects_in self.now) a b }
        ensures holds { NoObjectsClash self.now → (name : ℕ → Sum)
            → AllObjectsHold name (λ a. slice_index result.now a) (facts_in name self.now) }
    {
        self.objects.classes()
    }

    /// The value that the facts give a flag, with the first fact that does.
    pub fn flag(&self, flag: Symbol) -> Option<Given>
        ensures { result ≡ find_given self.now.flags flag }
    {
        giver_of(&self.flags, flag)
    }
}

/// The objects with the fact of this number, and a clash of their facts then. After a refusal the facts are as before.
fn tell(
    alloc: Global,
    objects: &mut Objects,
    left: u64,
    right: u64,
    one: bool,
    number: u64,
) -> Result<Option<CaseProof>, AllocError>
    requires left_in { left < objects.old.count }
    requires right_in { right < objects.old.count }
    ensures stands { OnOk result (objects.new.facts ≡ objects.old.facts
        ++ record { left = left; right = right; one = one; number = number } ∷ []) }
    ensures count { objects.new.count ≡ objects.old.count }
    ensures refused { OnErr result (objects.new.facts ≡ objects.old.facts) }
    ensures clash { IfOk result (λ clash. IfSome clash (λ p. IsClash objects.new.facts (clash_of p))) }
    ensures none { IfOk result (λ clash. IfNone clash ((c : Clash) → IsClash objects.new.facts c → ⊥)) }
{
    let mark = objects.mark();
    objects.take(left, right, one, number)?;
    match objects.clash(alloc) {
        Ok(clash) => Ok(clash),
        Err(refused) => {
            objects.back_to(mark);
            Err(refused)
        }
    }
}

/// The first clash that is known.
fn known(clash: Option<FlagClash>, other: Option<u64>, number: u64) -> Option<FlagClash>
    ensures { result ≡ clash_after clash other number }
{
    match (clash, other) {
        (Some(clash), _) => Some(clash),
        (None, Some(first)) => Some(FlagClash {
            first,
            second: number,
        }),
        (None, None) => None,
    }
}

/// A conflict of rows, as a clash.
fn by_rows(found: Option<Multipliers>) -> Option<CaseProof>
    ensures { IsByRows found result }
{
    match found {
        Some(multipliers) => Some(CaseProof::Rows(multipliers)),
        None => None,
    }
}

/// The numbers of two facts that give one flag two values, as a clash.
fn by_flags(first: Option<u64>, second: u64) -> Option<CaseProof>
    ensures { IsByFlags first second result }
{
    match first {
        Some(first) => Some(CaseProof::Flags(first, second)),
        None => None,
    }
}
