// The trait of the engines that decide rows, and what they answer.
ghost use Rattle.std.specs.Prelude.{◌≡◌, ◌≢◌, ℕ, List, [], ◌∷◌, ◌++◌, ◌≤◌, length, take, slice_get, Some, OnOk, OnErr, IfOk, IfErr, IfSome, IfNone, IsNone, IsTrue, Ok};
ghost use Rattle.lq_base_numbers.specs.Rationals.Rational.{ℚ};
ghost use Rattle.lq_base_numbers.specs.Fractions.Value.{value_of};
ghost use Rattle.lq_logic_rows.specs.Row.{Row, Valuation};
ghost use Rattle.lq_logic_rows.specs.Contradiction.{Tagged, tagged, Solves, IsContradiction};
ghost use Rattle.lq_logic_rows.specs.Answers.{Last, Nothing, Held, Conflicted, Stopped, verdict_of};
ghost use Rattle.lq_logic_rows.specs.declared.engine.LinearStop.{LinearStop};
ghost use Rattle.lq_logic_rows.specs.declared.engine.Verdict.TheVariants.{Conflict};

use crate::row::LinearRow;
use lq_base_numbers::fractions::{Frac, NumberPast};
use thiserror::Error;

/// What an engine found about the rows that stand.
#[derive(Clone, Copy, Debug, PartialEq, Eq)]
pub enum Verdict {
    /// A point solves them all.
    Holds,
    /// A sum of them is a contradiction.
    Conflict,
}

/// What an engine keeps of its last answer.
#[derive(Clone, Copy, Debug, PartialEq, Eq)]
pub enum Answer {
    /// None since the rows that stand changed.
    Unasked,
    /// A point solves them all.
    Solved,
    /// A sum of them is a contradiction.
    Contradicted,
    /// A stop, until the engine goes back to a mark.
    GaveUp,
}

/// Why an engine gave no verdict.
#[derive(Clone, Copy, Debug, PartialEq, Eq, Error)]
pub enum LinearStop {
    /// An operation on two fractions has no form of 128 bits.
    #[error("{0}")]
    Number(NumberPast),
    /// The limit on pivots was spent.
    #[error("the limit of {0} pivots was spent")]
    Pivots(u64),
    #[error("out of memory")]
    Memory,
}

/// A number of rows that stood, to go back to.
#[derive(Clone, Copy, Debug, PartialEq, Eq)]
pub struct Mark(pub u64);

/// An engine that keeps rows and decides whether a point solves them all.
pub trait LinearEngine {
    // the rows that stand, each with its tag, oldest first
    ghost standing: { Self → Tagged };

    // `handed engine rows`: the rows are all that the engine was ever handed. No field has to keep them
    ghost handed: { Self → List Row → Type 0 };

    // the last answer
    ghost last: { Self → Last };

    // the engine's limits, which never change
    ghost limits: { Self → List ℕ };

    // the row test: whether an engine of these limits takes a row beside the rows that stand
    ghost takes: { List ℕ → Tagged → Row → Type 0 };

    // the stop test: which stops it may answer, with these rows standing and these ever handed
    ghost may_stop: { List ℕ → Tagged → List Row → LinearStop → Type 0 };

    // the values of the last answer, where it is `Held`
    ghost point: { Self → Valuation };

    // the pairs of a tag and a multiplier, where it is `Conflicted`
    ghost multipliers: { Self → List (ℕ × ℚ) };

    // a contradiction of the rows that stand is known, so that a check has no work left
    ghost known: { Self → Type 0 };

    /// Adds a row under a tag that no row that stands has. A row that is refused was never handed.
    fn assert_row(&mut self, row: &LinearRow, tag: u64) -> Result<(), LinearStop>
        requires takes { takes (limits self.old) (standing self.old) row.now }
        requires fresh { IsNone (tagged (standing self.old) tag) }
        requires going { last self.old ≢ Stopped }
        ensures stands { OnOk result (standing self.new ≡ standing self.old ++ (tag, row.now) ∷ []) }
        ensures last { OnOk result (last self.new ≡ Nothing) }
        ensures handed { OnOk result ((rows : List Row) → handed self.old rows
            → handed self.new (rows ++ row.now ∷ [])) }
        ensures refused { OnErr result ((rows : List Row) → handed self.old rows → handed self.new rows) }
        ensures stop { IfErr result (λ stop. (rows : List Row) → handed self.old rows
            → may_stop (limits self.old) (standing self.old ++ (tag, row.now) ∷ []) (rows ++ row.now
            ∷ []) stop) }
        ensures stopped { OnErr result (last self.new ≡ Stopped) }
        ensures unchanged { OnErr result (standing self.new ≡ standing self.old) }
        ensures limits { limits self.new ≡ limits self.old };

    /// How many rows stand.
    fn mark(&self) -> Mark
        ensures { result.0 ≡ length (standing self.now) };

    /// Keeps as many of the first rows as stood at the mark.
    fn back_to(&mut self, mark: Mark)
        requires { mark.0 ≤ length (standing self.old) }
        ensures stands { standing self.new ≡ take mark.0 (standing self.old) }
        ensures handed { (rows : List Row) → handed self.old rows → handed self.new rows }
        ensures last { last self.new ≡ Nothing }
        ensures limits { limits self.new ≡ limits self.old };

    /// Whether a contradiction of the rows that stand is known already, as it is after `Conflict` and may be as soon as a row was
    /// asserted. It does no work.
    fn contradicted(&self) -> bool
        ensures known { IsTrue result → known self.now }
        ensures contradicts { IsTrue result → (ms : List (ℕ × ℚ)) × IsContradiction (standing self.now) ms }
        ensures answered { last self.now ≡ Conflicted → IsTrue result };

    /// Decides the rows that stand.
    fn check(&mut self) -> Result<Verdict, LinearStop>
        requires { last self.old ≢ Stopped }
        ensures known { known self.old → result ≡ Ok Conflict }
        ensures solves { last self.new ≡ Held → Solves (point self.new) (standing self.new) }
        ensures contradicts { last self.new ≡ Conflicted
            → IsContradiction (standing self.new) (multipliers self.new) }
        ensures answer { IfOk result (λ verdict. last self.new ≡ verdict_of verdict) }
        ensures stop { IfErr result (λ stop. (rows : List Row) → handed self.old rows
            → may_stop (limits self.old) (standing self.old) rows stop) }
        ensures stopped { OnErr result (last self.new ≡ Stopped) }
        ensures stands { standing self.new ≡ standing self.old }
        ensures handed { (rows : List Row) → handed self.old rows → handed self.new rows }
        ensures limits { limits self.new ≡ limits self.old };

    /// The value of a term after `Holds`.
    fn value(&self, term: u64) -> Frac
        requires { last self.now ≡ Held }
        ensures { value_of result ≡ point self.now term };

    /// After `Conflict`, the pairs of a tag and its multiplier in turn, and None past the last one.
    fn multiplier(&self, at: usize) -> Option<(u64, Frac)>
        requires { last self.now ≡ Conflicted }
        ensures some { IfSome result (λ m. slice_get (multipliers self.now) at ≡ Some (m.0, value_of m.1)) }
        ensures none { IfNone result (IsNone (slice_get (multipliers self.now) at)) };
}

/// No valuation solves rows that sum to a contradiction, so an engine's two verdicts never both fit
/// the rows that stand (the easy half of Farkas' lemma).
pub fn conflict_or_point()
    ensures { (v : Valuation) (rows : Tagged) (ms : List (ℕ × ℚ)) → Solves v rows → IsContradiction rows ms
        → ⊥ }
{}
