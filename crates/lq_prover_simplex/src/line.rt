// Linear combinations of variables.
ghost use Rattle.std.specs.Prelude.{◌≡◌, ℕ, pos, ◌<◌, [], ◌∷◌, Some, length, slice_get, IfOk, IfErr, IfSome, IfNone};
ghost use Rattle.lq_base_numbers.specs.Rationals.Rational.{whole, ◌+ℚ◌, ◌*ℚ◌};
ghost use Rattle.lq_base_numbers.specs.Fractions.Value.{value_of};
ghost use Rattle.lq_logic_rows.specs.Row.{Valuation};
ghost use Rattle.lq_prover_simplex.specs.Lines.{combine, factor_of, owns, IsLine};
ghost use Rattle.lq_prover_simplex.specs.Operations.{IsLineSum, StopsIn};
ghost use Rattle.lq_prover_simplex.specs.WholeLines.{only, whole_entries};

use crate::error::TableauError;
use crate::fractions::{copied, factor, fraction_sum, owns};
use crate::gather::gathered;
use crate::merge::whole_sum;
use crate::parts::{entries, entry_at, factor_in, owns_part};
use crate::whole::{Part, WholeLine};
use lq_base_numbers::fractions::Frac;
use std::alloc::{AllocError, Global};
use std::marker::Model;

/// A variable and its factor.
#[derive(Clone, Copy)]
pub(crate) struct Entry {
    pub(crate) variable: usize,
    pub(crate) factor: Frac,
}

/// How a combination is kept: as whole numbers over one denominator, or as fractions where such numbers would leave 128 bits.
#[derive(Drop)]
enum Kept {
    Whole(WholeLine),
    Fractions(Vec<Entry>),
}

/// A linear combination of variables: they stand by ascending number, each once, and no factor is 0.
#[derive(Drop)]
pub(crate) struct Line {
    kept: Kept,
}

impl Model for Line {
    ghost use Rattle.std.specs.Prelude.{List};
    ghost use Rattle.lq_prover_simplex.specs.declared.line.Entry.{Entry};

    ghost Value = { List Entry };

    ghost use Rattle.lq_prover_simplex.specs.WholeLines.{kept_entries};

    ghost view = { λ l. kept_entries l.kept };
}

impl Line {
    /// No variable.
    pub(crate) fn empty(alloc: Global) -> Line
        ensures { result ≡ [] }
    {
        Line {
            kept: Kept::Whole(WholeLine {
                parts: Vec::new(alloc),
                denominator: 1,
            }),
        }
    }

    /// One variable with its factor.
    pub(crate) fn single(alloc: Global, variable: usize, factor: Frac) -> Result<Line, AllocError>
        ensures { IfOk result (λ line. line ≡ only variable factor) }
    {
        let mut parts = Vec::new(alloc);
        parts.push(Part {
            variable,
            numerator: factor.numer(),
        })?;
        Ok(Line {
            kept: Kept::Whole(WholeLine {
                parts,
                denominator: factor.denom() as u128,
            }),
        })
    }

    /// How many variables stand in it.
    pub(crate) fn len(&self) -> usize
        ensures { result ≡ length self.now }
    {
        match &self.kept {
            Kept::Whole(whole) => whole.parts.len(),
            Kept::Fractions(entries) => entries.len(),
        }
    }

    /// The variable at a place, and its factor.
    pub(crate) fn entry(&self, at: usize) -> Entry
        requires { at < length self.now }
        ensures { slice_get self.now at ≡ Some result }
    {
        match &self.kept {
            Kept::Whole(whole) => entry_at(whole, at),
            Kept::Fractions(entries) => entries[at],
        }
    }

    /// Whether it is one variable alone, and this one.
    pub(crate) fn owns(&self, variable: usize) -> bool
        ensures { result ≡ owns self.now variable }
    {
        match &self.kept {
            Kept::Whole(whole) => owns_part(whole.parts.as_slice(), variable),
            Kept::Fractions(entries) => owns(entries.as_slice(), variable),
        }
    }

    /// The factor of a variable, if it stands there.
    pub(crate) fn factor(&self, variable: usize) -> Option<Frac>
        requires { IsLine self.now }
        ensures some { IfSome result (λ f. (value_of f ≡ factor_of self.now variable)
            × ¬ (value_of f ≡ whole (pos 0))) }
        ensures none { IfNone result (factor_of self.now variable ≡ whole (pos 0)) }
    {
        match &self.kept {
            Kept::Whole(whole) => factor_in(whole, variable),
            Kept::Fractions(entries) => factor(entries.as_slice(), variable),
        }
    }

    /// Its variables with their factors.
    fn fractions(&self, alloc: Global) -> Result<Vec<Entry>, AllocError>
        ensures { IfOk result (λ made. made.items ≡ self.now) }
    {
        match &self.kept {
            Kept::Whole(whole) => entries(alloc, whole),
            Kept::Fractions(entries) => copied(alloc, entries.as_slice()),
        }
    }

    /// The combination of these entries.
    fn of_fractions(alloc: Global, entries: Vec<Entry>) -> Result<Line, AllocError>
        ensures { IfOk result (λ line. line ≡ entries.items) }
    {
        match gathered(alloc, entries.as_slice())? {
            None => Ok(Line {
                kept: Kept::Fractions(entries),
            }),
            Some(line) => Ok(Line {
                kept: Kept::Whole(line),
            }),
        }
    }

    /// One combination and so many times another, where both are kept as whole numbers and these stay within 128 bits.
    fn whole_sum(
        alloc: Global,
        left: &Line,
        times: &Frac,
        right: &Line,
    ) -> Result<Option<WholeLine>, AllocError>
        requires left { IsLine left.now }
        requires right { IsLine right.now }
        ensures sum { IfOk result (λ made. IfSome made (λ line. (x : Valuation)
            → combine x (whole_entries line) ≡ combine x left.now +ℚ value_of times.now *ℚ combine x
            right.now)) }
        ensures line { IfOk result (λ made. IfSome made (λ line. IsLine (whole_entries line))) }
    {
        match &left.kept {
            Kept::Whole(first) => match &right.kept {
                Kept::Whole(second) => whole_sum(alloc, first, times, second),
                Kept::Fractions(_) => Ok(None),
            },
            Kept::Fractions(_) => Ok(None),
        }
    }

    /// One combination and so many times another.
    pub(crate) fn sum(
        alloc: Global,
        left: &Line,
        times: &Frac,
        right: &Line,
    ) -> Result<Line, TableauError>
        requires left { IsLine left.now }
        requires right { IsLine right.now }
        ensures sum { IfOk result (λ line. (x : Valuation)
            → combine x line ≡ combine x left.now +ℚ value_of times.now *ℚ combine x right.now) }
        ensures line { IfOk result IsLine }
        ensures stop { IfErr result (StopsIn (IsLineSum left.now (value_of times.now) right.now)) }
    {
        if let Some(line) = Line::whole_sum(alloc, left, times, right)? {
            return Ok(Line {
                kept: Kept::Whole(line),
            });
        }
        let first = left.fractions(alloc)?;
        let second = right.fractions(alloc)?;
        let entries = fraction_sum(alloc, first.as_slice(), times, second.as_slice())?;
        Ok(Line::of_fractions(alloc, entries)?)
    }
}
