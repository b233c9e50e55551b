// What is known of hypotheses.
ghost use Rattle.std.specs.Prelude.{◌≡◌};
ghost use Rattle.lq_prover_case.specs.State.RowState.{terms_of as row_terms};

use crate::facts::plain::is_plain;
use crate::facts::read::ReadPred;
use crate::facts::reads::{refutes, take_unless};
use crate::facts::standing::{Stand, settle, settle_facts};
use crate::facts::values::{evaluate, meets_each};
use lq_logic_predicates::{
    GatherError, Nnf, Pred, TermTable, rows_say_what_comparisons_say, tighten,
};
use lq_logic_rows::Mark;
use lq_prover_case::state::PathState;
use std::alloc::{AllocError, Global};
use std::rc::Rc;

/// Facts that hypotheses give, over terms that are numbered as they come: the literals that stand under no choice, but for those about objects
/// and for rows with terms of large numbers. The readings of the hypotheses are kept whole.
#[derive(Drop)]
pub struct Known {
    alloc: Global,
    room: u64,
    table: TermTable,
    state: PathState,
    readings: Vec<Rc<ReadPred>>,
    /// Whether a goal is proved by a check of all facts too, and not only by a clash that is seen as its own are taken.
    checks: bool,
    ghost limits: { row_terms state.rows ≡ room },
}

impl Known {
    ghost use Rattle.std.specs.Prelude.{◌≡◌, ◌↔◌, ◌≤◌, ℕ, Bool, length, min, take, true, false, IfOk, IfSome, IsTrue, OnOk};
    ghost use Rattle.lq_prover_case.specs.State.RowState.{row_point};
    ghost use Rattle.lq_logic_rows.specs.Row.{Valuation};
    ghost use Rattle.lq_logic_predicates.specs.Formula.{Formula};
    ghost use Rattle.lq_logic_predicates.specs.Points.{Meets, Point};
    ghost use Rattle.lq_logic_predicates.specs.PredView.{formula_of};
    ghost use Rattle.lq_logic_predicates.specs.Reading.{reading_of};
    ghost use Rattle.lq_logic_predicates.specs.RowMeaning.{AgreesOn, MeetsRows};
    ghost use Rattle.lq_logic_predicates.specs.Sum.{Sum};
    ghost use Rattle.lq_logic_predicates.specs.TableView.{terms_of};
    ghost use Rattle.lq_solve_facts.specs.Facts.Facts.{facts_of};
    ghost use Rattle.lq_solve_facts.specs.Facts.Known.{HasPoint, Hold, HoldFirst, IsAt, IsRead, IsReadOf, IsSettled, Keeps, fact_count, readings_of};
    ghost use Rattle.lq_solve_facts.specs.Facts.Plain.{IsPlain};
    ghost use Rattle.lq_solve_facts.specs.Facts.Read.{IsReading, hypothesis_reading};
    ghost use Rattle.lq_solve_facts.specs.Facts.Values.{MeetsEachRow};
    ghost use Rattle.lq_solve_facts.specs.declared.facts.standing.Stand.TheVariants.{Proved, Settled, Unknown};

    /// No facts. Those to come are over the first `room` terms, and a check makes at most `limit` pivots.
    pub fn new(alloc: Global, room: u64, limit: u64) -> Result<Known, AllocError>
        ensures { IfOk result (λ known. (p : Point) → Hold known p) }
    {
        Known::made(alloc, room, limit, true)
    }

    /// The same, where `proves` makes no check: what a goal costs there doesn't grow with the room, and only what its own facts clash with
    /// at once is proved.
    pub fn without_checks(alloc: Global, room: u64, limit: u64) -> Result<Known, AllocError>
        ensures { IfOk result (λ known. (p : Point) → Hold known p) }
    {
        Known::made(alloc, room, limit, false)
    }

    // No facts, and whether checks are made.
    fn made(alloc: Global, room: u64, limit: u64, checks: bool) -> Result<Known, AllocError>
        ensures { IfOk result (λ known. (p : Point) → Hold known p) }
    {
        let table = TermTable::new(alloc)?;
        let state = PathState::new(alloc, room, limit, 0)?;
        Ok(Known {
            alloc,
            room,
            table,
            state,
            readings: Vec::new(alloc),
            checks,
        })
    }

    /// Adds the facts of a hypothesis, and its reading. Where that can't be gathered, or the hypothesis has a quotient, a remainder or a
    /// product of two unknown factors, a reading that is never met stands for it.
    pub fn add(&mut self, hypothesis: &Pred) -> Result<(), AllocError>
        ensures held { (p : Point) → Hold self.old p → Meets p (reading_of true (formula_of hypothesis.now)) → Hold self.new p }
        ensures keeps { Keeps self.old self.new }
        ensures read { OnOk result (IsRead self.old self.new (formula_of hypothesis.now)) }
    {
        let read = self.take_facts(hypothesis);
        let read = Rc::new(self.alloc, read)?;
        self.readings.push(read)?;
        Ok(())
    }

    // Takes the facts of a hypothesis. The answer is what was read of it.
    fn take_facts(&mut self, hypothesis: &Pred) -> ReadPred
        ensures held { (p : Point) → Hold self.old p → Meets p (reading_of true (formula_of hypothesis.now)) → Hold self.new p }
        ensures keeps { Keeps self.old self.new }
        ensures same { readings_of self.new ≡ readings_of self.old }
        ensures read { (v : Valuation) (p : Point) → AgreesOn (terms_of self.new.table) v p
            → MeetsRows v p (hypothesis_reading result)
            → Meets p (reading_of true (formula_of hypothesis.now)) × IsPlain (formula_of hypothesis.now) }
    {
        let is_known = self.is_known(hypothesis);
        self.take_new(hypothesis, is_known)
    }

    // Whether a hypothesis would bring nothing new: where no checks are made, it is tried whether it follows from the facts.
    fn is_known(&mut self, hypothesis: &Pred) -> bool
        ensures kept { (p : Point) → Hold self.old p → Hold self.new p }
        ensures keeps { Keeps self.old self.new }
        ensures same { readings_of self.new ≡ readings_of self.old }
    {
        if self.checks {
            return false;
        }
        self.proves(hypothesis)
    }

    // Takes the facts of a hypothesis, unless it is known already. The answer is what was read of it.
    fn take_new(&mut self, hypothesis: &Pred, is_known: bool) -> ReadPred
        ensures held { (p : Point) → Hold self.old p → Meets p (reading_of true (formula_of hypothesis.now)) → Hold self.new p }
        ensures keeps { Keeps self.old self.new }
        ensures same { readings_of self.new ≡ readings_of self.old }
        ensures read { (v : Valuation) (p : Point) → AgreesOn (terms_of self.new.table) v p
            → MeetsRows v p (hypothesis_reading result)
            → Meets p (reading_of true (formula_of hypothesis.now)) × IsPlain (formula_of hypothesis.now) }
    {
        rows_say_what_comparisons_say();
        match tighten(self.alloc, hypothesis, true, &mut self.table) {
            Ok(reading) => {
                let _count = self.table.len();
                take_unless(is_known, &mut self.state, self.room, &reading);
                ReadPred {
                    met: Some(reading),
                    against: None,
                    is_plain: is_plain(hypothesis),
                }
            }
            Err(_) => ReadPred {
                met: None,
                against: None,
                is_plain: false,
            },
        }
    }

    /// Whether the facts are known to refute the negation of a goal. They stay.
    pub fn proves(&mut self, goal: &Pred) -> bool
        ensures proved { IsTrue result → (p : Point) → Hold self.old p
            → Meets p (reading_of false (formula_of goal.now)) → ⊥ }
        ensures kept { (p : Point) → Hold self.old p → Hold self.new p }
        ensures keeps { Keeps self.old self.new }
        ensures same { readings_of self.new ≡ readings_of self.old }
    {
        rows_say_what_comparisons_say();
        match tighten(self.alloc, goal, false, &mut self.table) {
            Ok(reading) => {
                let _count = self.table.len();
                refutes(&mut self.state, self.room, self.checks, &reading)
            }
            Err(_) => false,
        }
    }

    /// Whether the facts clash: anything is proved then; or whether values solve them all.
    pub fn settle(&mut self) -> Stand
        ensures clash { result ≡ Proved → (p : Point) → Hold self.old p → ⊥ }
        ensures settled { result ≡ Settled → IsSettled self.new }
        ensures kept { (p : Point) → Hold self.old p → Hold self.new p }
        ensures keeps { Keeps self.old self.new }
        ensures readings { readings_of self.new ≡ readings_of self.old }
    {
        rows_say_what_comparisons_say();
        settle_facts(&mut self.state)
    }

    /// How a goal stands to the facts. Where its negation is refuted it is proved, and the facts stay. Where the literals of the negation, or
    /// of a member of a choice, stand with the facts and values solve all, they stay with them, and the values too. Else the facts stay.
    pub fn stand_against(&mut self, goal: &Pred) -> Stand
        ensures proved { result ≡ Proved → (p : Point) → Hold self.old p
            → Meets p (reading_of false (formula_of goal.now)) → ⊥ }
        ensures kept { result ≡ Proved → (p : Point) → Hold self.old p → Hold self.new p }
        ensures settled { result ≡ Settled → IsSettled self.new }
        ensures unknown { result ≡ Unknown → (p : Point) → Hold self.old p → Hold self.new p }
        ensures keeps { Keeps self.old self.new }
        ensures readings { readings_of self.new ≡ readings_of self.old }
    {
        rows_say_what_comparisons_say();
        match tighten(self.alloc, goal, false, &mut self.table) {
            Ok(reading) => {
                let _count = self.table.len();
                settle(&mut self.state, self.room, &reading)
            }
            Err(_) => Stand::Unknown,
        }
    }

    /// Whether each hypothesis is known to be met at the values.
    pub fn meets_all(&self) -> bool
        requires { IsSettled self.now }
        ensures { IsTrue result → (p : Point) → IsAt self.now p
            → MeetsEachRow (row_point self.now.state.rows) p (readings_of self.now) }
    {
        meets_each(&self.state, self.readings.as_slice())
    }

    /// Whether a predicate, or its negation, is met at the values. None where it has a quotient, a remainder, a product of two unknown
    /// factors or a number past 128 bits, or where this hangs on two objects.
    pub fn meets(&mut self, pred: &Pred, positive: bool) -> Result<Option<bool>, AllocError>
        requires { IsSettled self.old }
        ensures answer { IfOk result (λ o. IfSome o (λ b. IsPlain (formula_of pred.now) × ((p : Point) → IsAt self.new p
            → IsTrue b ↔ Meets p (reading_of positive (formula_of pred.now))))) }
        ensures settled { IsSettled self.new }
        ensures at { (p : Point) → IsAt self.new p → IsAt self.old p }
        ensures keeps { Keeps self.old self.new }
        ensures readings { readings_of self.new ≡ readings_of self.old }
        ensures facts { facts_of self.new.state ≡ facts_of self.old.state }
    {
        rows_say_what_comparisons_say();
        if !is_plain(pred) {
            return Ok(None);
        }
        match tighten(self.alloc, pred, positive, &mut self.table) {
            Ok(reading) => {
                let _count = self.table.len();
                Ok(evaluate(&self.state, &reading))
            }
            Err(GatherError::Past) => Ok(None),
            Err(GatherError::Memory) => Err(AllocError),
        }
    }

    /// Reads a predicate. The facts and the readings of the hypotheses stay.
    pub fn read(&mut self, pred: &Pred) -> Result<Rc<ReadPred>, AllocError>
        ensures read { IfOk result (λ r. IsReadOf self.new r.value (formula_of pred.now)) }
        ensures kept { (p : Point) → Hold self.old p → Hold self.new p }
        ensures keeps { Keeps self.old self.new }
        ensures same { readings_of self.new ≡ readings_of self.old }
    {
        let read = self.read_both(pred);
        let read = Rc::new(self.alloc, read)?;
        Ok(read)
    }

    /// Reads a predicate that is a goal: its negation alone. The facts and the readings of the hypotheses stay.
    pub fn read_goal(&mut self, pred: &Pred) -> Result<Rc<ReadPred>, AllocError>
        ensures read { IfOk result (λ r. IsReadOf self.new r.value (formula_of pred.now)) }
        ensures kept { (p : Point) → Hold self.old p → Hold self.new p }
        ensures keeps { Keeps self.old self.new }
        ensures same { readings_of self.new ≡ readings_of self.old }
    {
        let read = self.read_negation(pred);
        let read = Rc::new(self.alloc, read)?;
        Ok(read)
    }

    // The reading of the negation of a predicate.
    fn read_negation(&mut self, pred: &Pred) -> ReadPred
        ensures read { IsReadOf self.new result (formula_of pred.now) }
        ensures kept { (p : Point) → Hold self.old p → Hold self.new p }
        ensures keeps { Keeps self.old self.new }
        ensures same { readings_of self.new ≡ readings_of self.old }
    {
        let against = self.reading(pred, false);
        ReadPred {
            met: None,
            against,
            is_plain: is_plain(pred),
        }
    }

    // The readings of a predicate and of its negation.
    fn read_both(&mut self, pred: &Pred) -> ReadPred
        ensures read { IsReadOf self.new result (formula_of pred.now) }
        ensures kept { (p : Point) → Hold self.old p → Hold self.new p }
        ensures keeps { Keeps self.old self.new }
        ensures same { readings_of self.new ≡ readings_of self.old }
    {
        let met = self.reading(pred, true);
        let against = self.reading(pred, false);
        ReadPred {
            met,
            against,
            is_plain: is_plain(pred),
        }
    }

    // The reading of a predicate, or of its negation, where it can be gathered.
    fn reading(&mut self, pred: &Pred, positive: bool) -> Option<Nnf>
        ensures reading { IsReading (terms_of self.new.table) result positive (formula_of pred.now) }
        ensures kept { (p : Point) → Hold self.old p → Hold self.new p }
        ensures keeps { Keeps self.old self.new }
        ensures same { readings_of self.new ≡ readings_of self.old }
    {
        rows_say_what_comparisons_say();
        match tighten(self.alloc, pred, positive, &mut self.table) {
            Ok(reading) => {
                let _count = self.table.len();
                Some(reading)
            }
            Err(_) => None,
        }
    }

    /// The same as `add`, of a hypothesis that was read.
    pub fn add_read(&mut self, read: &Rc<ReadPred>) -> Result<(), AllocError>
        ensures held { (h : Formula) → IsReadOf self.old read.now.value h → (p : Point) → Hold self.old p
            → Meets p (reading_of true h) → Hold self.new p }
        ensures keeps { Keeps self.old self.new }
        ensures read { OnOk result ((h : Formula) → IsReadOf self.old read.now.value h → IsRead self.old self.new h) }
    {
        let kept = read.clone()?;
        self.take_read(read);
        self.readings.push(kept)?;
        Ok(())
    }

    // Takes the facts of a hypothesis that was read.
    fn take_read(&mut self, read: &Rc<ReadPred>)
        ensures held { (h : Formula) → IsReadOf self.old read.now.value h → (p : Point) → Hold self.old p
            → Meets p (reading_of true h) → Hold self.new p }
        ensures keeps { Keeps self.old self.new }
        ensures same { readings_of self.new ≡ readings_of self.old }
    {
        let is_known = self.is_read_known(read);
        self.take_new_read(read.as_ref(), is_known);
    }

    // Whether a hypothesis would bring nothing new: where no checks are made, it is tried whether it follows from the facts.
    fn is_read_known(&mut self, read: &Rc<ReadPred>) -> bool
        ensures kept { (p : Point) → Hold self.old p → Hold self.new p }
        ensures keeps { Keeps self.old self.new }
        ensures same { readings_of self.new ≡ readings_of self.old }
    {
        if self.checks {
            return false;
        }
        self.proves_read(read)
    }

    // Takes the facts of a hypothesis that was read, unless it is known already.
    fn take_new_read(&mut self, read: &ReadPred, is_known: bool)
        ensures held { (h : Formula) → IsReadOf self.old read.now h → (p : Point) → Hold self.old p
            → Meets p (reading_of true h) → Hold self.new p }
        ensures keeps { Keeps self.old self.new }
        ensures same { readings_of self.new ≡ readings_of self.old }
    {
        match read.side(true) {
            Some(reading) => take_unless(is_known, &mut self.state, self.room, reading),
            None => {}
        }
    }

    /// The same as `proves`, of a goal that was read.
    pub fn proves_read(&mut self, read: &Rc<ReadPred>) -> bool
        ensures proved { IsTrue result → (h : Formula) → IsReadOf self.old read.now.value h → (p : Point) → Hold self.old p
            → Meets p (reading_of false h) → ⊥ }
        ensures kept { (p : Point) → Hold self.old p → Hold self.new p }
        ensures keeps { Keeps self.old self.new }
        ensures same { readings_of self.new ≡ readings_of self.old }
    {
        rows_say_what_comparisons_say();
        match read.as_ref().side(false) {
            Some(reading) => refutes(&mut self.state, self.room, self.checks, reading),
            None => false,
        }
    }

    /// The same as `stand_against`, of a goal that was read.
    pub fn stand_against_read(&mut self, read: &Rc<ReadPred>) -> Stand
        ensures proved { result ≡ Proved → (h : Formula) → IsReadOf self.old read.now.value h → (p : Point) → Hold self.old p
            → Meets p (reading_of false h) → ⊥ }
        ensures kept { result ≡ Proved → (p : Point) → Hold self.old p → Hold self.new p }
        ensures settled { result ≡ Settled → IsSettled self.new }
        ensures unknown { result ≡ Unknown → (p : Point) → Hold self.old p → Hold self.new p }
        ensures keeps { Keeps self.old self.new }
        ensures readings { readings_of self.new ≡ readings_of self.old }
    {
        rows_say_what_comparisons_say();
        match read.as_ref().side(false) {
            Some(reading) => settle(&mut self.state, self.room, reading),
            None => Stand::Unknown,
        }
    }

    /// The same as `meets`, of a predicate that was read.
    pub fn meets_read(&self, read: &Rc<ReadPred>, positive: bool) -> Option<bool>
        requires { IsSettled self.now }
        ensures { IfSome result (λ b. (h : Formula) → IsReadOf self.now read.now.value h → IsPlain h × ((p : Point)
            → IsAt self.now p → IsTrue b ↔ Meets p (reading_of positive h))) }
    {
        let read = read.as_ref();
        if !read.is_plain {
            return None;
        }
        match read.side(positive) {
            Some(reading) => evaluate(&self.state, reading),
            None => None,
        }
    }

    /// There is a point at the values, whatever the classes of its objects.
    pub fn has_point(&self)
        ensures { (class_of : Sum → ℕ) → HasPoint self.now class_of }
    {
        rows_say_what_comparisons_say();
        let _count = self.table.len();
    }

    /// Whether terms that come now are past the room, so that rows over them are left out.
    pub fn is_full(&self) -> bool {
        self.table.len() >= self.room
    }

    /// How many facts there are, as a mark to go back to.
    pub fn mark(&self) -> u64
        ensures count { result ≡ fact_count self.now }
        ensures all { (p : Point) → Hold self.now p → HoldFirst result self.now p }
    {
        self.state.mark().0
    }

    /// How many readings there are, one for each hypothesis.
    pub fn reading_count(&self) -> u64
        ensures { result ≡ length (readings_of self.now) }
    {
        self.readings.len() as u64
    }

    /// Keeps this many of the first facts and readings, or all where there are fewer. Terms that were numbered since stay so.
    pub fn back_to(&mut self, count: u64, readings: u64)
        ensures count { fact_count self.new ≡ min count (fact_count self.old) }
        ensures hold { (p : Point) → HoldFirst count self.old p → Hold self.new p }
        ensures first { (n : ℕ) (p : Point) → n ≤ count → HoldFirst n self.old p → HoldFirst n self.new p }
        ensures readings { readings_of self.new ≡ take readings (readings_of self.old) }
        ensures terms { terms_of self.new.table ≡ terms_of self.old.table }
    {
        self.readings.truncate(readings as usize);
        let all = self.state.mark();
        if all.0 <= count {
            return;
        }
        self.state.back_to(Mark(count));
    }
}
