// The tableau: an engine of all rows.
ghost use Rattle.std.specs.Prelude.{◌≡◌, ℕ, List, [], ◌∷◌, ◌++◌, length, pos, MatchBool, true, false, IfOk, IfErr, IfSome, IfNone, IsNone, OnOk, OnErr};
ghost use Rattle.lq_base_numbers.specs.Rationals.Rational.{whole, ◌*ℚ◌};
ghost use Rattle.lq_base_numbers.specs.Rationals.RationalOrder.{◌≤ℚ◌, ◌<ℚ◌, NotNegative};
ghost use Rattle.lq_base_numbers.specs.Fractions.Value.{value_of};
ghost use Rattle.lq_logic_rows.specs.Row.{Row};
ghost use Rattle.lq_logic_rows.specs.Contradiction.{Tagged, tagged, Solves, IsContradiction};
ghost use Rattle.lq_logic_rows.specs.Steps.{valuation_of};
ghost use Rattle.lq_logic_rows.specs.Forms.{Parts};
ghost use Rattle.lq_logic_rows.specs.Difference.{TermsBelow};
ghost use Rattle.lq_prover_simplex.specs.Standing.{standing_of, multipliers_of, AllRead, TagsApart, AllBare};
ghost use Rattle.lq_prover_simplex.specs.Systems.{IsSystem};
ghost use Rattle.lq_prover_simplex.specs.Conflicts.{AllKeep};
ghost use Rattle.lq_prover_simplex.specs.Appearing.{AreFormsOf};
ghost use Rattle.lq_prover_simplex.specs.Configurations.{AllAmong, Rests, FreeKeep, Settles};
ghost use Rattle.lq_prover_simplex.specs.Bounds.{interval_at, AreTightest, AreUncrossed};
ghost use Rattle.lq_prover_simplex.specs.History.{IsHistory};
ghost use Rattle.lq_prover_simplex.specs.Table.{FailsBy, HasCause, HasWork, StopsAt, StopsReading};

use crate::basis::Basis;
use crate::conflict::explain;
use crate::error::TableauError;
use crate::limits::Limits;
use crate::line::Line;
use crate::reading::read;
use crate::row::{Standing, copy};
use lq_base_numbers::fractions::Frac;
use lq_logic_rows::{Answer, LinearEngine, LinearRow, LinearStop, Mark, Verdict};
use std::alloc::{AllocError, Global};
use std::marker::Model;

/// All rows over the terms below a number, decided by pivots.
#[derive(Drop)]
pub struct Tableau {
    alloc: Global,
    limit: u64,
    basis: Basis,
    rows: Vec<Standing>,
    /// The tightest bounds of the rows that stand.
    limits: Limits,
    found: Vec<(u64, Frac)>,
    answer: Answer,
}

impl Model for Tableau {
    ghost use Rattle.lq_prover_simplex.specs.Table.{Table, IsTable};

    ghost Value = { Table };

    ghost view = { λ t. record { system = t.basis; rows = t.rows.items; limits = t.limits; found = t.found.items; answer = t.answer; limit = t.limit } };

    ghost invariant = { λ t. IsTable (record { system = t.basis; rows = t.rows.items; limits = t.limits; found = t.found.items; answer = t.answer; limit = t.limit }) };
}

/// The multiplier of a row without terms that doesn't hold.
fn refuting(constant: i128, equal: bool) -> Option<Frac>
    ensures above { IfSome result (λ m. whole (pos 0) <ℚ (value_of m *ℚ whole constant)) }
    ensures fair { IfSome result (λ m. MatchBool equal (Unit {0}) (NotNegative (value_of m))) }
    ensures none { IfNone result (MatchBool equal (whole constant ≡ whole (pos 0))
        (whole constant ≤ℚ whole (pos 0))) }
{
    if constant > 0 {
        Some(Frac::whole(1))
    } else if equal && constant < 0 {
        Some(Frac::whole(-1))
    } else {
        None
    }
}

/// One tag and its multiplier.
fn single(alloc: Global, tag: u64, multiplier: Frac) -> Result<Vec<(u64, Frac)>, AllocError>
    ensures { IfOk result (λ found. found.items ≡ (tag, multiplier) ∷ []) }
{
    let mut found = Vec::new(alloc);
    found.push((tag, multiplier))?;
    Ok(found)
}

/// The tag and the multiplier of the first row without terms that doesn't hold.
fn refuted(alloc: Global, rows: &[Standing]) -> Result<Option<Vec<(u64, Frac)>>, AllocError>
    requires read { (forms : List Parts) × AllRead forms rows.now }
    requires apart { TagsApart rows.now }
    ensures contradicted { IfOk result (λ found. IfSome found (λ ms. IsContradiction (standing_of rows.now)
        (multipliers_of ms.items))) }
    ensures none { IfOk result (λ found. IfNone found (AllBare rows.now)) }
{
    for standing in rows {
        if standing.bound.is_none() {
            if let Some(multiplier) = refuting(standing.row.constant(), standing.row.equal()) {
                return Ok(Some(single(alloc, standing.tag, multiplier)?));
            }
        }
    }
    Ok(None)
}

/// Brings the free variables to the bounds that they break.
fn settle(alloc: Global, basis: &mut Basis, limits: &Limits) -> Result<(), TableauError>
    requires { AreUncrossed limits.now (length basis.old.forms) }
    ensures keeps { OnOk result (FreeKeep limits.now basis.new) }
    ensures system { IsSystem basis.new }
    ensures settles { Settles limits.now basis.old basis.new }
    ensures terms { basis.new.terms ≡ basis.old.terms }
    ensures forms { basis.new.forms ≡ basis.old.forms }
    ensures stop { IfErr result (HasWork basis.old limits.now) }
{
    for variable in 0..basis.len() {
        let value = basis.values()[variable];
        if basis.is_free(variable) {
            if let Some(broken) = limits.broken_at(variable, &value) {
                basis.shift(alloc, variable, &broken.limit.bound.value)?;
            }
        }
    }
    Ok(())
}

/// Pivots until no variable breaks a bound, or until one can't be brought to its bound: the answer is then the rows that keep it
/// from there, and their multipliers.
fn pivots(
    alloc: Global,
    basis: &mut Basis,
    rows: &[Standing],
    limits: &Limits,
    limit: u64,
) -> Result<Option<Vec<(u64, Frac)>>, TableauError>
    requires system { IsSystem basis.old }
    requires read { AllRead basis.old.forms rows.now }
    requires apart { TagsApart rows.now }
    requires tightest { AreTightest rows.now (interval_at limits.now) }
    requires uncrossed { AreUncrossed limits.now (length basis.old.forms) }
    requires keeps { FreeKeep limits.now basis.old }
    ensures solved { IfOk result (λ found. IfNone found (AllKeep limits.now basis.new)) }
    ensures settles { Settles limits.now basis.old basis.new }
    ensures contradicted { IfOk result (λ found. IfSome found (λ ms. IsContradiction (standing_of rows.now)
        (multipliers_of ms.items))) }
    ensures terms { basis.new.terms ≡ basis.old.terms }
    ensures forms { basis.new.forms ≡ basis.old.forms }
    ensures stop { IfErr result (HasCause basis.old rows.now limit) }
{
    let mut left = limit;
    loop {
        let Some(broken) = limits.broken(basis.values()) else {
            return Ok(None);
        };
        let line = basis.line(broken.variable);
        let Some(entry) = limits.entering(line, broken.side, basis.values()) else {
            return Ok(Some(explain(alloc, rows, limits, &broken, line)?));
        };
        if left == 0 {
            return Err(TableauError::Spent);
        }
        left -= 1;
        basis.pivot(alloc, broken.variable, entry, &broken.limit.bound.value)?;
    }
}

/// Decides the rows: values that solve them, or tags and multipliers of rows that sum to a contradiction.
fn decide(
    alloc: Global,
    basis: &mut Basis,
    rows: &[Standing],
    limits: &Limits,
    limit: u64,
) -> Result<Option<Vec<(u64, Frac)>>, TableauError>
    requires read { AllRead basis.old.forms rows.now }
    requires apart { TagsApart rows.now }
    requires tightest { AreTightest rows.now (interval_at limits.now) }
    ensures solved { IfOk result (λ found. IfNone found
        (Solves (valuation_of basis.new.values) (standing_of rows.now))) }
    ensures rests { (ever : List Row) → AllAmong ever rows.now → Rests ever basis.old → Rests ever basis.new }
    ensures contradicted { IfOk result (λ found. IfSome found (λ ms. IsContradiction (standing_of rows.now)
        (multipliers_of ms.items))) }
    ensures terms { basis.new.terms ≡ basis.old.terms }
    ensures forms { basis.new.forms ≡ basis.old.forms }
    ensures stop { IfErr result (HasCause basis.old rows.now limit) }
{
    if let Some(found) = refuted(alloc, rows)? {
        return Ok(Some(found));
    }
    if let Some(broken) = limits.crossed(basis.len()) {
        let own = Line::single(alloc, broken.variable, Frac::whole(1))?;
        return Ok(Some(explain(alloc, rows, limits, &broken, &own)?));
    }
    settle(alloc, basis, limits)?;
    pivots(alloc, basis, rows, limits, limit)
}

/// Adds a row that stands, or leaves all as it was.
fn stand(
    alloc: Global,
    basis: &mut Basis,
    rows: &mut Vec<Standing>,
    limits: &mut Limits,
    row: &LinearRow,
    tag: u64,
) -> Result<(), TableauError>
    requires below { TermsBelow basis.old.terms row.now.parts }
    requires read { AllRead basis.old.forms rows.old.items }
    requires apart { TagsApart rows.old.items }
    requires fresh { IsNone (tagged (standing_of rows.old.items) tag) }
    requires placed { length limits.old.intervals.items ≡ length basis.old.forms }
    requires history { IsHistory rows.old.items limits.old.intervals.items limits.old.changes.items }
    ensures added { OnOk result (standing_of rows.new.items ≡ standing_of rows.old.items ++ (tag, row.now)
        ∷ []) }
    ensures kept { OnErr result (rows.new.items ≡ rows.old.items) }
    ensures read { AllRead basis.new.forms rows.new.items }
    ensures apart { TagsApart rows.new.items }
    ensures placed { length limits.new.intervals.items ≡ length basis.new.forms }
    ensures history { IsHistory rows.new.items limits.new.intervals.items limits.new.changes.items }
    ensures among { OnOk result ((ever : List Row) → AllAmong ever rows.old.items
        → AllAmong (ever ++ row.now ∷ []) rows.new.items) }
    ensures rests { OnOk result ((ever : List Row) → Rests ever basis.old → Rests ever basis.new) }
    ensures forms { OnOk result ((ever : List Row) → AreFormsOf ever basis.old.terms basis.old.forms
        → AreFormsOf (ever ++ row.now ∷ []) basis.new.terms basis.new.forms) }
    ensures refused { OnErr result (basis.new ≡ basis.old) }
    ensures terms { basis.new.terms ≡ basis.old.terms }
    ensures stop { IfErr result (StopsReading basis.old row.now) }
{
    rows.reserve(1)?;
    limits.reserve()?;
    let copied = copy(alloc, row)?;
    let bound = read(alloc, basis, row)?;
    let standing = Standing {
        tag,
        row: copied,
        bound,
    };
    limits.admit(rows, &standing, basis.len());
    rows.push_reserved(standing);
    Ok(())
}

/// What the engine answers.
fn stop_of(stop: TableauError, limit: u64) -> LinearStop
    ensures { (terms : ℕ) (standing : Tagged) (ever : List Row) → FailsBy terms limit standing ever stop
        → StopsAt terms limit standing ever result }
{
    match stop {
        TableauError::Past(past) => LinearStop::Number(past),
        TableauError::Spent => LinearStop::Pivots(limit),
        TableauError::Memory => LinearStop::Memory,
    }
}

impl Tableau {
    ghost use Rattle.lq_logic_rows.specs.Answers.{Nothing};
    ghost use Rattle.lq_prover_simplex.specs.Configurations.{IsConfiguration};
    ghost use Rattle.lq_prover_simplex.specs.Table.{table_rows, table_last, table_limits, table_point, Handed};
    ghost use Rattle.lq_prover_simplex.specs.Working.{IsPlaced};

    /// An empty tableau for rows over the terms below `terms`, whose checks make at most `limit` pivots each.
    pub fn new(alloc: Global, terms: u64, limit: u64) -> Result<Tableau, AllocError>
        ensures rows { IfOk result (λ tableau. table_rows tableau ≡ []) }
        ensures last { IfOk result (λ tableau. table_last tableau ≡ Nothing) }
        ensures limits { IfOk result (λ tableau. table_limits tableau ≡ terms ∷ limit ∷ []) }
        ensures handed { IfOk result (λ tableau. Handed tableau []) }
    {
        let basis = Basis::new(alloc, terms)?;
        let limits = Limits::new(alloc, basis.len())?;
        Ok(Tableau {
            alloc,
            limit,
            basis,
            rows: Vec::new(alloc),
            limits,
            found: Vec::new(alloc),
            answer: Answer::Unasked,
        })
    }

    /// What always holds of a tableau, as a law: at every point each variable is the combination of free ones that its line says, and
    /// the free ones, as many as there are terms, can be chosen freely. Rows that are multiples of one another bound one variable. A free one has the value 0 or a
    /// bound that a row gives which was handed. So the values are those of a configuration of the rows that were handed.
    pub fn configuration(&self)
        ensures configured { IsConfiguration self.now.system }
        ensures rests { (ever : List Row) → Handed self.now ever → Rests ever self.now.system }
        ensures forms { (ever : List Row) → Handed self.now ever
            → AreFormsOf ever self.now.system.terms self.now.system.forms }
        ensures placed { (ever : List Row) → Handed self.now ever
            → IsPlaced self.now.system.terms ever (table_point self.now) }
    {
        let _ = self.basis.values();
    }
}

impl LinearEngine for Tableau {
    ghost use Rattle.lq_logic_rows.specs.Answers.{Conflicted};
    ghost use Rattle.lq_prover_simplex.specs.Table.{table_rows, table_last, table_limits, table_point, table_multipliers, TakesRow, Handed, MayStop};

    ghost standing = { table_rows };

    ghost handed = { Handed };

    ghost last = { table_last };

    ghost limits = { table_limits };

    ghost takes = { TakesRow };

    ghost may_stop = { MayStop };

    ghost point = { table_point };

    ghost multipliers = { table_multipliers };

    ghost known = { λ table. table_last table ≡ Conflicted };

    fn assert_row(&mut self, row: &LinearRow, tag: u64) -> Result<(), LinearStop> {
        match stand(
            self.alloc,
            &mut self.basis,
            &mut self.rows,
            &mut self.limits,
            row,
            tag,
        ) {
            Ok(()) => {
                self.answer = Answer::Unasked;
                Ok(())
            }
            Err(stop) => {
                self.answer = Answer::GaveUp;
                Err(stop_of(stop, self.limit))
            }
        }
    }

    fn mark(&self) -> Mark {
        Mark(self.rows.len() as u64)
    }

    fn back_to(&mut self, mark: Mark) {
        self.limits.back_to(mark.0 as usize);
        self.rows.truncate(mark.0 as usize);
        self.answer = Answer::Unasked;
    }

    fn contradicted(&self) -> bool {
        matches!(self.answer, Answer::Contradicted)
    }

    fn check(&mut self) -> Result<Verdict, LinearStop> {
        match self.answer {
            Answer::Contradicted => return Ok(Verdict::Conflict),
            Answer::Solved => return Ok(Verdict::Holds),
            Answer::Unasked | Answer::GaveUp => {}
        }
        match decide(
            self.alloc,
            &mut self.basis,
            &self.rows,
            &self.limits,
            self.limit,
        ) {
            Ok(None) => {
                self.answer = Answer::Solved;
                Ok(Verdict::Holds)
            }
            Ok(Some(found)) => {
                self.found = found;
                self.answer = Answer::Contradicted;
                Ok(Verdict::Conflict)
            }
            Err(stop) => {
                self.answer = Answer::GaveUp;
                Err(stop_of(stop, self.limit))
            }
        }
    }

    fn value(&self, term: u64) -> Frac {
        match self.basis.values().get(term as usize) {
            Some(value) => *value,
            None => Frac::whole(0),
        }
    }

    fn multiplier(&self, at: usize) -> Option<(u64, Frac)> {
        match self.found.as_slice().get(at) {
            Some(pair) => Some(*pair),
            None => None,
        }
    }
}
