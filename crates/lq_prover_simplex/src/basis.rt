// The variables, their combinations of the free ones, and their values.
ghost use Rattle.std.specs.Prelude.{◌≡◌, ◌≢◌, true, ℕ, pos, ◌<◌, ◌≤◌, ◌+◌, List, length, slice_get, Some, IfOk, IfErr, IfSome, IfNone, OnOk, OnErr, ◌++◌, ◌∷◌, []};
ghost use Rattle.lq_base_numbers.specs.Rationals.Rational.{whole, ◌+ℚ◌, ◌-ℚ◌, ◌*ℚ◌};
ghost use Rattle.lq_logic_rows.specs.Row.{Valuation, sum_at};
ghost use Rattle.lq_logic_rows.specs.Steps.{valuation_of};
ghost use Rattle.lq_base_numbers.specs.Fractions.Value.{value_of};
ghost use Rattle.lq_prover_simplex.specs.Lines.{combine, factor_of, IsLine, IsOwnLine};
ghost use Rattle.lq_logic_rows.specs.Forms.{IsNormal};
ghost use Rattle.lq_logic_rows.specs.Difference.{TermsBelow};
ghost use Rattle.lq_prover_simplex.specs.Systems.{form_at, line_at, change_at, after, IsChange, IsAdded, IsShifted, IsFree, IsSystem, GoesOn};
ghost use Rattle.lq_prover_simplex.specs.Appearing.{IsExtended};
ghost use Rattle.lq_prover_simplex.specs.Operations.{IsAdding, IsBringing, IsChanging, IsExchange, IsLineSum, IsLining, IsMoved, IsPastIn, IsRelating, IsShifting, IsSummed, StopsIn};
ghost use Rattle.lq_prover_simplex.specs.Configurations.{AllStay, Brings, Exchanges};

use crate::error::TableauError;
use crate::line::{Entry, Line};
use lq_base_numbers::fractions::{Frac, NumberPast};
use std::alloc::{AllocError, Global};
use std::marker::Model;

/// A linear form: pairs of a term's number and its coefficient.
#[derive(Drop)]
pub(crate) struct Form {
    parts: Vec<(u64, i128)>,
}

impl Model for Form {
    ghost use Rattle.std.specs.Prelude.{ℕ, ℤ, List};

    ghost Value = { List (ℕ × ℤ) };

    ghost view = { λ f. f.parts.items };
}

impl Form {
    pub(crate) fn new(parts: Vec<(u64, i128)>) -> Form
        ensures { result ≡ parts.items }
    {
        Form { parts }
    }

    pub(crate) fn parts(&self) -> &[(u64, i128)]
        ensures { result.now ≡ self.now }
    {
        self.parts.as_slice()
    }
}

/// Variables, each a form over the terms, of which some are free: the others are linear combinations of these. The first variables
/// are the terms themselves. Each variable has a value, and the values meet the combinations and the forms.
#[derive(Drop)]
pub(crate) struct Basis {
    terms: u64,
    forms: Vec<Form>,
    lines: Vec<Line>,
    values: Vec<Frac>,
}

impl Model for Basis {
    ghost use Rattle.lq_prover_simplex.specs.Systems.{System, IsSystem};

    ghost Value = { System };

    ghost view = { λ b. record { terms = b.terms; forms = b.forms.items; lines = b.lines.items; values = b.values.items } };

    ghost invariant = { λ b. IsSystem (record { terms = b.terms; forms = b.forms.items; lines = b.lines.items; values = b.values.items }) };
}

/// The value of a variable after another, which is free, has moved.
fn moved(value: &Frac, line: &Line, variable: usize, by: &Frac) -> Result<Frac, NumberPast>
    requires { IsLine line.now }
    ensures exact { IfOk result (λ f. value_of f ≡ value_of value.now +ℚ factor_of line.now variable *ℚ
        value_of by.now) }
    ensures stop { IfErr result (IsPastIn (IsMoved (value_of value.now) (factor_of line.now variable)
        (value_of by.now))) }
{
    match line.factor(variable) {
        None => Ok(*value),
        Some(factor) => value.add(&factor.mul(by)?),
    }
}

/// The values after a free variable has moved.
fn shifted(
    alloc: Global,
    lines: &[Line],
    values: &[Frac],
    variable: usize,
    by: &Frac,
) -> Result<Vec<Frac>, TableauError>
    requires valued { length values.now ≡ length lines.now }
    requires lines { (k : ℕ) → IsLine (line_at lines.now k) }
    ensures shifted { IfOk result (λ new. IsShifted lines.now values.now variable
        (value_of by.now) new.items) }
    ensures stop { IfErr result (StopsIn (IsShifting lines.now (valuation_of values.now) variable
        (value_of by.now))) }
{
    let mut shifted = Vec::new(alloc);
    for (at, line) in lines.iter().enumerate() {
        shifted.push(moved(&values[at], line, variable, by)?)?;
    }
    Ok(shifted)
}

/// A line in which a variable stands, after so many times a combination has been added as the line has of the variable.
fn change(
    alloc: Global,
    line: &Line,
    variable: usize,
    zero: &Line,
) -> Result<Option<Line>, TableauError>
    requires line { IsLine line.now }
    requires zero { IsLine zero.now }
    ensures change { IfOk result (λ new. IsChange line.now variable zero.now new) }
    ensures stop { IfErr result (StopsIn (IsLineSum line.now (factor_of line.now variable) zero.now)) }
{
    match line.factor(variable) {
        None => Ok(None),
        Some(factor) => Ok(Some(Line::sum(alloc, line, &factor, zero)?)),
    }
}

/// The lines in which a variable stands, after so many times a combination that is 0 everywhere has been added.
fn changed(
    alloc: Global,
    lines: &[Line],
    variable: usize,
    zero: &Line,
) -> Result<Vec<Option<Line>>, TableauError>
    requires lines { (k : ℕ) → IsLine (line_at lines.now k) }
    requires zero { IsLine zero.now }
    ensures added { IfOk result (λ changed. IsAdded lines.now variable zero.now changed.items) }
    ensures stop { IfErr result (StopsIn (IsChanging lines.now variable zero.now)) }
{
    let mut changed = Vec::new(alloc);
    for line in lines {
        changed.push(change(alloc, line, variable, zero)?)?;
    }
    Ok(changed)
}

/// Puts the changed lines in the place of the old ones.
fn install(lines: &mut [Line], mut changed: Vec<Option<Line>>)
    requires { length changed.items ≡ length lines.old }
    ensures { (k : ℕ) → line_at lines.new k ≡ after (change_at changed.items k) (line_at lines.old k) }
{
    for at in 0..lines.len() {
        if let Some(line) = changed[at].take() {
            lines[at] = line;
        }
    }
}

/// A combination that is 0 everywhere: it has the factor -1 for the entering variable, and else the leaving one and the free ones.
fn relation(alloc: Global, line: &Line, leaving: usize, factor: &Frac) -> Result<Line, TableauError>
    requires line { IsLine line.now }
    requires apart { ¬ (value_of factor.now ≡ whole (pos 0)) }
    ensures sum { IfOk result (λ zero. (x : Valuation)
        → combine x zero *ℚ value_of factor.now ≡ x leaving -ℚ combine x line.now) }
    ensures line { IfOk result IsLine }
    ensures stop { IfErr result (StopsIn (IsRelating line.now leaving (value_of factor.now))) }
{
    let inverse = Frac::whole(1).div(factor)?;
    let times = inverse.neg()?;
    let first = Line::single(alloc, leaving, inverse)?;
    Line::sum(alloc, &first, &times, line)
}

/// The line of a form: the sum of its coefficients times the lines of its terms.
fn line_of(alloc: Global, lines: &[Line], parts: &[(u64, i128)]) -> Result<Line, TableauError>
    requires lines { (k : ℕ) → IsLine (line_at lines.now k) }
    requires below { TermsBelow (length lines.now) parts.now }
    ensures sum { IfOk result (λ line. (x : Valuation)
        → combine x line ≡ sum_at (λ t. combine x (line_at lines.now t)) parts.now) }
    ensures line { IfOk result IsLine }
    ensures stop { IfErr result (StopsIn (IsLining lines.now parts.now)) }
{
    let mut line = Line::empty(alloc);
    for (term, coefficient) in parts {
        line = Line::sum(
            alloc,
            &line,
            &Frac::whole(*coefficient),
            &lines[*term as usize],
        )?;
    }
    Ok(line)
}

/// The value of a form: the sum of its coefficients times the values of its terms.
fn form_value(values: &[Frac], parts: &[(u64, i128)]) -> Result<Frac, NumberPast>
    requires { TermsBelow (length values.now) parts.now }
    ensures exact { IfOk result (λ f. value_of f ≡ sum_at (valuation_of values.now) parts.now) }
    ensures stop { IfErr result (IsPastIn (IsSummed (valuation_of values.now) parts.now)) }
{
    let mut total = Frac::whole(0);
    for (term, coefficient) in parts {
        let product = Frac::whole(*coefficient).mul(&values[*term as usize])?;
        total = total.add(&product)?;
    }
    Ok(total)
}

/// The number of a form among these.
fn find(forms: &[Form], parts: &[(u64, i128)]) -> Option<usize>
    ensures some { IfSome result (λ k. (k < length forms.now) × (form_at forms.now k ≡ parts.now)) }
    ensures none { IfNone result ((k : ℕ) → k < length forms.now → form_at forms.now k ≢ parts.now) }
{
    for (at, form) in forms.iter().enumerate() {
        if form.parts() == parts {
            return Some(at);
        }
    }
    None
}

/// The form of a term.
fn single(alloc: Global, term: u64) -> Result<Form, AllocError>
    ensures { IfOk result (λ form. form ≡ (term, pos 1) ∷ []) }
{
    let mut parts = Vec::new(alloc);
    parts.push((term, 1))?;
    Ok(Form::new(parts))
}

/// The line of a free term: itself.
fn own(alloc: Global, term: u64) -> Result<Line, AllocError>
    ensures { IfOk result (λ line. IsOwnLine term line) }
{
    Line::single(alloc, term as usize, Frac::whole(1))
}

/// Adds a form with its line and its value, or leaves all as they were.
fn extend(
    forms: &mut Vec<Form>,
    lines: &mut Vec<Line>,
    values: &mut Vec<Frac>,
    form: Form,
    line: Line,
    value: Frac,
) -> Result<(), AllocError>
    ensures forms { OnOk result (forms.new.items ≡ forms.old.items ++ form ∷ []) }
    ensures lines { OnOk result (lines.new.items ≡ lines.old.items ++ line ∷ []) }
    ensures values { OnOk result (values.new.items ≡ values.old.items ++ value ∷ []) }
    ensures no_forms { OnErr result (forms.new.items ≡ forms.old.items) }
    ensures no_lines { OnErr result (lines.new.items ≡ lines.old.items) }
    ensures no_values { OnErr result (values.new.items ≡ values.old.items) }
{
    let count = lines.len();
    lines.push(line)?;
    let valued = values.len();
    let Ok(()) = values.push(value) else {
        lines.truncate(count);
        return Err(AllocError);
    };
    let Ok(()) = forms.push(form) else {
        lines.truncate(count);
        values.truncate(valued);
        return Err(AllocError);
    };
    Ok(())
}

impl Basis {
    /// The terms alone, each free and with the value 0.
    pub(crate) fn new(alloc: Global, terms: u64) -> Result<Basis, AllocError>
        ensures terms { IfOk result (λ basis. basis.terms ≡ terms) }
        ensures count { IfOk result (λ basis. length basis.forms ≡ terms) }
        ensures zero { IfOk result (λ basis. (k : ℕ) → valuation_of basis.values k ≡ whole (pos 0)) }
    {
        let mut forms = Vec::new(alloc);
        let mut lines = Vec::new(alloc);
        let mut values = Vec::new(alloc);
        for term in 0..terms {
            let form = single(alloc, term)?;
            let line = own(alloc, term)?;
            extend(
                &mut forms,
                &mut lines,
                &mut values,
                form,
                line,
                Frac::whole(0),
            )?;
        }
        Ok(Basis {
            terms,
            forms,
            lines,
            values,
        })
    }

    /// How many variables there are.
    pub(crate) fn len(&self) -> usize
        ensures count { result ≡ length self.now.forms }
        ensures system { IsSystem self.now }
    {
        self.forms.len()
    }

    pub(crate) fn values(&self) -> &[Frac]
        ensures values { result.now ≡ self.now.values }
        ensures system { IsSystem self.now }
    {
        self.values.as_slice()
    }

    /// The combination of free variables that a variable is.
    pub(crate) fn line(&self, variable: usize) -> &Line
        requires { variable < length self.now.forms }
        ensures line { result.now ≡ line_at self.now.lines variable }
        ensures system { IsSystem self.now }
    {
        &self.lines[variable]
    }

    /// Whether a variable is free: its combination is itself.
    pub(crate) fn is_free(&self, variable: usize) -> bool
        requires { variable < length self.now.forms }
        ensures yes { result ≡ true → IsFree self.now.lines variable }
        ensures no { IsFree self.now.lines variable → result ≡ true }
    {
        self.lines[variable].owns(variable)
    }

    /// The number of a form, which is added where it isn't there yet.
    pub(crate) fn variable(&mut self, alloc: Global, form: Form) -> Result<usize, TableauError>
        requires below { TermsBelow self.old.terms form }
        requires normal { IsNormal form }
        ensures found { IfOk result (λ k. (k < length self.new.forms) × (form_at self.new.forms k ≡ form)) }
        ensures extended { OnOk result (IsExtended self.old.forms self.new.forms form) }
        ensures kept { OnErr result (self.new ≡ self.old) }
        ensures terms { self.new.terms ≡ self.old.terms }
        ensures forms { GoesOn self.old.forms self.new.forms }
        ensures stays { AllStay self.old self.new }
        ensures stop { IfErr result (StopsIn (IsAdding self.old form)) }
    {
        if let Some(found) = find(&self.forms, form.parts()) {
            return Ok(found);
        }
        let line = line_of(alloc, &self.lines, form.parts())?;
        let value = form_value(&self.values, form.parts())?;
        let at = self.forms.len();
        self.add(form, line, value)?;
        Ok(at)
    }

    fn add(&mut self, form: Form, line: Line, value: Frac) -> Result<(), AllocError>
        requires below { TermsBelow self.old.terms form }
        requires normal { IsNormal form }
        requires absent { (k : ℕ) → k < length self.old.forms → form_at self.old.forms k ≢ form }
        requires line { IsLine line }
        requires sum { (x : Valuation) → combine x line
            ≡ sum_at (λ t. combine x (line_at self.old.lines t)) form }
        requires value { value_of value ≡ sum_at (valuation_of self.old.values) form }
        ensures added { OnOk result (self.new.forms ≡ self.old.forms ++ form ∷ []) }
        ensures kept { OnErr result (self.new ≡ self.old) }
        ensures terms { self.new.terms ≡ self.old.terms }
        ensures stays { AllStay self.old self.new }
    {
        extend(
            &mut self.forms,
            &mut self.lines,
            &mut self.values,
            form,
            line,
            value,
        )?;
        Ok(())
    }

    /// Brings a free variable to a bound, and moves those that depend on it.
    pub(crate) fn shift(
        &mut self,
        alloc: Global,
        variable: usize,
        bound: &Frac,
    ) -> Result<(), TableauError>
        requires { IsFree self.old.lines variable }
        ensures brought { OnOk result (Brings self.old self.new variable (value_of bound.now)) }
        ensures system { IsSystem self.new }
        ensures kept { OnErr result (self.new ≡ self.old) }
        ensures terms { self.new.terms ≡ self.old.terms }
        ensures forms { self.new.forms ≡ self.old.forms }
        ensures stop { IfErr result (StopsIn (IsBringing self.old variable (value_of bound.now))) }
    {
        let by = bound.sub(&self.values[variable])?;
        self.values = shifted(alloc, &self.lines, &self.values, variable, &by)?;
        Ok(())
    }

    /// Brings a variable to a bound: it becomes free, and the entering one, which moves for that, a combination.
    pub(crate) fn pivot(
        &mut self,
        alloc: Global,
        leaving: usize,
        entering: Entry,
        bound: &Frac,
    ) -> Result<(), TableauError>
        requires inside { leaving < length self.old.forms }
        requires entry { (at : ℕ) × (slice_get (line_at self.old.lines leaving) at ≡ Some entering) }
        requires apart { entering.variable ≢ leaving }
        ensures exchanged { OnOk result (Exchanges self.old self.new leaving entering.variable
            (value_of bound.now)) }
        ensures system { IsSystem self.new }
        ensures kept { OnErr result (self.new ≡ self.old) }
        ensures terms { self.new.terms ≡ self.old.terms }
        ensures forms { self.new.forms ≡ self.old.forms }
        ensures stop { IfErr result (StopsIn (IsExchange self.old leaving entering.variable
            (value_of entering.factor) (value_of bound.now))) }
    {
        let way = bound.sub(&self.values[leaving])?;
        let by = way.div(&entering.factor)?;
        let values = shifted(alloc, &self.lines, &self.values, entering.variable, &by)?;
        let zero = relation(alloc, &self.lines[leaving], leaving, &entering.factor)?;
        let changed = changed(alloc, &self.lines, entering.variable, &zero)?;
        install(&mut self.lines, changed);
        self.values = values;
        Ok(())
    }
}
