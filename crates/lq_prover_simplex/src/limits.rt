// The tightest bounds of the variables.
ghost use Rattle.std.specs.Prelude.{◌≡◌, ℕ, ◌<◌, ◌≤◌, ◌+◌, Bool, true, false, List, [], ◌∷◌, ◌++◌, length, take, Option, Some, slice_get, vec_capacity, IfOk, IfSome, IfNone, OnOk};
ghost use Rattle.std.specs.Option.{option_or};
ghost use Rattle.lq_base_numbers.specs.Rationals.Rational.{whole};
ghost use Rattle.lq_base_numbers.specs.Rationals.RationalOrder.{◌≤ℚ◌, ◌<ℚ◌};
ghost use Rattle.lq_base_numbers.specs.Fractions.Value.{value_of};
ghost use Rattle.lq_logic_rows.specs.Steps.{valuation_of};
ghost use Rattle.lq_prover_simplex.specs.Standing.{BoundBelow};
ghost use Rattle.lq_prover_simplex.specs.Lines.{VariablesBelow};
ghost use Rattle.lq_prover_simplex.specs.Bounds.{other, Within, Beyond, IsOn, limit_at, bound_value, AreUncrossed, IsAdmitted, IsNarrowed, Keeps, Breaks, blocking_of, IsBlocked, AllBlocked};
ghost use Rattle.lq_prover_simplex.specs.History.{IsHistory, HasRoom, IsBefore};
ghost use Rattle.lq_logic_rows.specs.declared.bound.Side.{Side};
ghost use Rattle.lq_logic_rows.specs.declared.bound.Side.TheVariants.{Lower, Upper};
ghost use Rattle.lq_prover_simplex.specs.declared.limits.Limit.{Limit};
ghost use Rattle.lq_prover_simplex.specs.declared.row.Standing.{Standing};

use crate::line::{Entry, Line};
use crate::row::{Bound, Standing};
use lq_base_numbers::fractions::Frac;
use lq_logic_rows::Side;
use std::alloc::{AllocError, Global};
use std::cmp::Ordering;

/// A bound, and the place of the row that gives it.
#[derive(Clone, Copy)]
pub(crate) struct Limit {
    pub(crate) row: usize,
    pub(crate) bound: Bound,
}

/// The tightest bounds of a variable.
#[derive(Clone, Copy)]
pub(crate) struct Interval {
    pub(crate) lower: Option<Limit>,
    pub(crate) upper: Option<Limit>,
}

/// The interval that a variable had before the row at this place came, which made it narrower.
#[derive(Clone, Copy)]
pub(crate) struct Change {
    pub(crate) row: usize,
    pub(crate) variable: usize,
    pub(crate) old: Interval,
}

/// The tightest bounds of each variable, and what leads back to those of fewer rows.
#[derive(Drop)]
pub(crate) struct Limits {
    pub(crate) intervals: Vec<Interval>,
    pub(crate) changes: Vec<Change>,
}

/// A variable that breaks a bound.
#[derive(Clone, Copy)]
pub(crate) struct Broken {
    pub(crate) variable: usize,
    pub(crate) side: Side,
    pub(crate) limit: Limit,
}

pub(crate) fn opposite(side: Side) -> Side
    ensures { result ≡ other side }
{
    match side {
        Side::Lower => Side::Upper,
        Side::Upper => Side::Lower,
    }
}

/// Whether one fraction is below another.
fn is_below(left: &Frac, right: &Frac) -> bool
    ensures yes { result ≡ true → value_of left.now <ℚ value_of right.now }
    ensures no { result ≡ false → value_of right.now ≤ℚ value_of left.now }
{
    match left.cmp(right) {
        Ordering::Less => true,
        Ordering::Equal => false,
        Ordering::Greater => false,
    }
}

/// Whether a value breaks a bound on this side.
pub(crate) fn breaks(side: Side, value: &Frac, bound: &Frac) -> bool
    ensures beyond { result ≡ true → Beyond side (value_of value.now) (value_of bound.now) }
    ensures within { result ≡ false → Within side (value_of value.now) (value_of bound.now) }
{
    match side {
        Side::Lower => is_below(value, bound),
        Side::Upper => is_below(bound, value),
    }
}

/// Whether a row bounds its variable on this side. An equation bounds it on both.
fn bounds(side: Side, equal: bool, turned: bool) -> bool
    ensures on { result ≡ true → IsOn side equal turned }
    ensures off { result ≡ false → ¬ (IsOn side equal turned) }
{
    match side {
        Side::Lower => equal || turned,
        Side::Upper => equal || !turned,
    }
}

/// The limit that a row's bound gives its variable on this side, where it is tighter than the old one.
fn tighter(side: Side, old: Option<Limit>, row: usize, equal: bool, bound: &Bound) -> Option<Limit>
    ensures { IsAdmitted side old row equal bound.now (option_or result old) }
{
    if !bounds(side, equal, bound.turned) {
        return None;
    }
    if let Some(limit) = old {
        if !breaks(side, &limit.bound.value, &bound.value) {
            return None;
        }
    }
    Some(Limit { row, bound: *bound })
}

/// The interval of a variable after a row's bound has come, where that makes it narrower.
fn narrowed(old: &Interval, row: usize, equal: bool, bound: &Bound) -> Option<Interval>
    ensures some { IfSome result (λ new. IsNarrowed old.now row equal bound.now new) }
    ensures none { IfNone result (IsNarrowed old.now row equal bound.now old.now) }
{
    let lower = tighter(Side::Lower, old.lower, row, equal, bound);
    let upper = tighter(Side::Upper, old.upper, row, equal, bound);
    if lower.is_none() && upper.is_none() {
        return None;
    }
    Some(Interval {
        lower: lower.or(old.lower),
        upper: upper.or(old.upper),
    })
}

impl Limits {
    /// No bounds of so many variables.
    pub(crate) fn new(alloc: Global, variables: usize) -> Result<Limits, AllocError>
        ensures history { IfOk result (λ limits. IsHistory [] limits.intervals.items limits.changes.items) }
        ensures count { IfOk result (λ limits. length limits.intervals.items ≡ variables) }
    {
        let unlimited = Interval {
            lower: None,
            upper: None,
        };
        Ok(Limits {
            intervals: vec![in alloc; unlimited; variables]?,
            changes: Vec::new(alloc),
        })
    }

    /// Makes room for what a row may add.
    pub(crate) fn reserve(&mut self) -> Result<(), AllocError>
        ensures room { OnOk result (HasRoom self.new) }
        ensures intervals { self.new.intervals.items ≡ self.old.intervals.items }
        ensures changes { self.new.changes.items ≡ self.old.changes.items }
    {
        self.intervals.reserve(1)?;
        self.changes.reserve(1)
    }

    /// Takes in the row that comes after these: where its variable is new, that gets a place, and where its bound is tighter than
    /// a limit, it takes the place of that.
    pub(crate) fn admit(&mut self, rows: &[Standing], standing: &Standing, variables: usize)
        requires room { HasRoom self.old }
        requires history { IsHistory rows.now self.old.intervals.items self.old.changes.items }
        requires least { length self.old.intervals.items ≤ variables }
        requires most { variables ≤ length self.old.intervals.items + 1 }
        requires below { BoundBelow variables standing.now.bound }
        ensures history { IsHistory (rows.now ++ standing.now ∷ []) self.new.intervals.items
            self.new.changes.items }
        ensures count { length self.new.intervals.items ≡ variables }
    {
        self.reach(variables);
        if let Some(bound) = standing.bound {
            self.tighten(rows.len(), standing.row.equal(), &bound);
        }
    }

    /// Gives each of so many variables a place.
    fn reach(&mut self, variables: usize)
        requires room { HasRoom self.old }
        requires least { length self.old.intervals.items ≤ variables }
        requires most { variables ≤ length self.old.intervals.items + 1 }
        ensures history { (rows : List Standing)
            → IsHistory rows self.old.intervals.items self.old.changes.items
            → IsHistory rows self.new.intervals.items self.new.changes.items }
        ensures count { length self.new.intervals.items ≡ variables }
        ensures room { length self.new.changes.items < vec_capacity self.new.changes }
    {
        if self.intervals.len() < variables {
            self.intervals.push_reserved(Interval {
                lower: None,
                upper: None,
            });
        }
    }

    /// Makes the interval of the variable narrower that the row at this place bounds, and keeps what it was.
    fn tighten(&mut self, row: usize, equal: bool, bound: &Bound)
        requires room { length self.old.changes.items < vec_capacity self.old.changes }
        requires inside { bound.now.variable < length self.old.intervals.items }
        ensures history { (rows : List Standing) (s : Standing) → length rows ≡ row → s.row.equal ≡ equal
            → s.bound ≡ Some bound.now → IsHistory rows self.old.intervals.items self.old.changes.items
            → IsHistory (rows ++ s ∷ []) self.new.intervals.items self.new.changes.items }
        ensures count { length self.new.intervals.items ≡ length self.old.intervals.items }
    {
        let old = self.intervals[bound.variable];
        if let Some(interval) = narrowed(&old, row, equal, bound) {
            self.changes.push_reserved(Change {
                row,
                variable: bound.variable,
                old,
            });
            self.intervals[bound.variable] = interval;
        }
    }

    /// Goes back to the limits of so many of the first rows.
    pub(crate) fn back_to(&mut self, count: usize)
        requires { (rows : List Standing) × IsHistory rows self.old.intervals.items self.old.changes.items }
        ensures history { (rows : List Standing)
            → IsHistory rows self.old.intervals.items self.old.changes.items
            → IsHistory (take count rows) self.new.intervals.items self.new.changes.items }
        ensures count { length self.new.intervals.items ≡ length self.old.intervals.items }
    {
        while let Some(change) = self.pop_after(count) {
            self.intervals[change.variable] = change.old;
        }
    }

    /// Takes the last change off, if a row after so many made it.
    fn pop_after(&mut self, count: usize) -> Option<Change>
        ensures some { IfSome result (λ c. (count ≤ c.row) × (self.old.changes.items ≡ self.new.changes.items
            ++ c ∷ [])) }
        ensures none { IfNone result ((self.new.changes.items ≡ self.old.changes.items)
            × IsBefore self.old.changes.items count) }
        ensures intervals { self.new.intervals.items ≡ self.old.intervals.items }
    {
        let last = self.changes.as_slice().last()?;
        if last.row < count {
            return None;
        }
        self.changes.pop()
    }

    /// The bound of a variable on this side.
    pub(crate) fn at(&self, side: Side, variable: usize) -> Option<Limit>
        ensures { result ≡ limit_at self.now side variable }
    {
        let interval = self.intervals.get(variable)?;
        match side {
            Side::Lower => interval.lower,
            Side::Upper => interval.upper,
        }
    }

    /// The bound on this side that a value of the variable breaks.
    fn broken_on(&self, side: Side, variable: usize, value: &Frac) -> Option<Broken>
        ensures some { IfSome result (λ b. (b.variable ≡ variable) × (b.side ≡ side)
            × Breaks self.now (value_of value.now) b) }
        ensures none { IfNone result (Keeps side (value_of value.now) (limit_at self.now side variable)) }
    {
        let limit = self.at(side, variable)?;
        if breaks(side, value, &limit.bound.value) {
            Some(Broken {
                variable,
                side,
                limit,
            })
        } else {
            None
        }
    }

    /// The bound that a value of the variable breaks.
    pub(crate) fn broken_at(&self, variable: usize, value: &Frac) -> Option<Broken>
        ensures some { IfSome result (λ b. (b.variable ≡ variable) × Breaks self.now (value_of value.now) b) }
        ensures none { IfNone result ((side : Side)
            → Keeps side (value_of value.now) (limit_at self.now side variable)) }
    {
        match self.broken_on(Side::Lower, variable, value) {
            None => self.broken_on(Side::Upper, variable, value),
            Some(broken) => Some(broken),
        }
    }

    /// The variable of least number that breaks a bound.
    pub(crate) fn broken(&self, values: &[Frac]) -> Option<Broken>
        ensures some { IfSome result (λ b. (b.variable < length values.now)
            × Breaks self.now (valuation_of values.now b.variable) b) }
        ensures least { IfSome result (λ b. (k : ℕ) → k < b.variable → (side : Side)
            → Keeps side (valuation_of values.now k) (limit_at self.now side k)) }
        ensures none { IfNone result ((k : ℕ) → k < length values.now → (side : Side)
            → Keeps side (valuation_of values.now k) (limit_at self.now side k)) }
    {
        for (variable, value) in values.iter().enumerate() {
            if let Some(broken) = self.broken_at(variable, value) {
                return Some(broken);
            }
        }
        None
    }

    /// The variable of least number whose lower bound is above its upper one, with its lower bound.
    pub(crate) fn crossed(&self, variables: usize) -> Option<Broken>
        ensures some { IfSome result (λ b. (upper : Limit) × (b.side ≡ Lower)
            × (limit_at self.now Upper b.variable ≡ Some upper) × Breaks self.now (bound_value upper) b) }
        ensures none { IfNone result (AreUncrossed self.now variables) }
    {
        for variable in 0..variables {
            if let Some(upper) = self.at(Side::Upper, variable) {
                if let Some(broken) = self.broken_on(Side::Lower, variable, &upper.bound.value) {
                    return Some(broken);
                }
            }
        }
        None
    }

    /// Whether a value is at the bound of its variable on this side, or past it.
    fn is_stuck(&self, side: Side, variable: usize, value: &Frac) -> bool
        ensures yes { result ≡ true → (limit : Limit) × (limit_at self.now side variable ≡ Some limit)
            × Within (other side) (value_of value.now) (bound_value limit) }
        ensures no { result ≡ false → (limit : Limit) → limit_at self.now side variable ≡ Some limit
            → ¬ Within (other side) (value_of value.now) (bound_value limit) }
    {
        match self.at(side, variable) {
            None => false,
            Some(limit) => !breaks(opposite(side), value, &limit.bound.value),
        }
    }

    /// The first entry of a line whose variable can move so that the line's variable gets nearer to its bound on this side.
    pub(crate) fn entering(&self, line: &Line, side: Side, values: &[Frac]) -> Option<Entry>
        requires { VariablesBelow (length values.now) line.now }
        ensures some { IfSome result (λ e. (at : ℕ) × (slice_get line.now at ≡ Some e)
            × AllBlocked self.now side (valuation_of values.now) (take at line.now)) }
        ensures moves { IfSome result (λ e. ¬ IsBlocked self.now side (valuation_of values.now) e) }
        ensures none { IfNone result (AllBlocked self.now side (valuation_of values.now) line.now) }
    {
        for at in 0..line.len() {
            let entry = line.entry(at);
            let toward = blocking(&entry.factor, side);
            if !self.is_stuck(toward, entry.variable, &values[entry.variable]) {
                return Some(entry);
            }
        }
        None
    }
}

/// The side on which a variable with this factor has to have a bound to keep a line from its bound on the given side.
pub(crate) fn blocking(factor: &Frac, side: Side) -> Side
    ensures { result ≡ blocking_of side (value_of factor.now) }
{
    if is_below(&Frac::whole(0), factor) {
        opposite(side)
    } else {
        side
    }
}
