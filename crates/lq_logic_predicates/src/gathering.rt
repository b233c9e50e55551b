// Comparisons gathered into rows.
ghost use Rattle.std.specs.Prelude.{◌≡◌, ℕ, pos, ◌+ℤ◌, ◌-ℤ◌, FitsSigned, IfOk, OnOk, IsErrOf};
ghost use Rattle.std.specs.Int.{w128};
ghost use Rattle.std.specs.Option.{SomeIff};
ghost use Rattle.lq_logic_rows.specs.Row.{IsRow};
ghost use Rattle.lq_logic_predicates.specs.Comparison.{comparison, entry, CanGather, IsRowOf};
ghost use Rattle.lq_logic_predicates.specs.FormOf.{at, HasForm, IsFormOf};
ghost use Rattle.lq_logic_predicates.specs.LinearForm.{one_at, IsFit};
ghost use Rattle.lq_logic_predicates.specs.Table.{numbered, with_term, Extends};
ghost use Rattle.lq_logic_predicates.specs.TableView.{terms_of};
ghost use Rattle.lq_logic_predicates.specs.TermView.{sum_of};

use crate::error::GatherError;
use crate::form::{Form, merge};
use crate::table::TermTable;
use crate::term::Term;
use lq_logic_rows::LinearRow;
use std::alloc::{AllocError, Global};
use std::collections::BTreeMap;

// Numbers the terms of a term that a table numbers, an inner one before the outer.
#[tactic(auto, using(crate::specs::Growing::growing))]
pub(crate) fn number_terms(
    alloc: Global,
    term: &Term,
    table: &mut TermTable,
) -> Result<(), AllocError>
    ensures numbered { OnOk result (terms_of table.new ≡ numbered (terms_of table.old) (sum_of term.now)) }
    ensures grows { Extends (terms_of table.old) (terms_of table.new) }
{
    match term {
        Term::Whole(_) => Ok(()),
        Term::Neg(a) => number_terms(alloc, a, table),
        Term::Add(a, b) | Term::Sub(a, b) => {
            number_terms(alloc, a, table)?;
            number_terms(alloc, b, table)
        }
        Term::Mul(a, b) => {
            number_terms(alloc, a, table)?;
            number_terms(alloc, b, table)?;
            if a.literal().is_none() && b.literal().is_none() {
                table.number(alloc, term)?;
            }
            Ok(())
        }
        Term::Div(a, b) | Term::Mod(a, b) => {
            number_terms(alloc, a, table)?;
            number_terms(alloc, b, table)?;
            table.number(alloc, term)?;
            Ok(())
        }
        Term::Var(_) | Term::Length(_) | Term::Measure(_, _) => {
            table.number(alloc, term)?;
            Ok(())
        }
    }
}

// The form of a variable or an application whose inner terms are numbered.
#[tactic(auto, using(crate::specs::Growing::growing))]
fn atom(alloc: Global, term: &Term, table: &mut TermTable) -> Result<Form, GatherError>
    ensures numbered { OnOk result (terms_of table.new ≡ with_term (terms_of table.old) (sum_of term.now)) }
    ensures form { IfOk result (λ f. HasForm (terms_of table.new) f (pos 0) (one_at (sum_of term.now))) }
    ensures past { IsErrOf result GatherError.Past → ⊥ }
    ensures grows { Extends (terms_of table.old) (terms_of table.new) }
{
    let number = table.number(alloc, term)?;
    Ok(Form::of_number(alloc, number)?)
}

// The form of an application of two arguments.
#[tactic(auto, using(crate::specs::Growing::growing))]
fn application(
    alloc: Global,
    term: &Term,
    left: &Term,
    right: &Term,
    table: &mut TermTable,
) -> Result<Form, GatherError>
    ensures numbered { OnOk result (terms_of table.new
        ≡ with_term (numbered (numbered (terms_of table.old) (sum_of left.now)) (sum_of right.now))
        (sum_of term.now)) }
    ensures form { IfOk result (λ f. HasForm (terms_of table.new) f (pos 0) (one_at (sum_of term.now))) }
    ensures past { IsErrOf result GatherError.Past → ⊥ }
    ensures grows { Extends (terms_of table.old) (terms_of table.new) }
{
    number_terms(alloc, left, table)?;
    number_terms(alloc, right, table)?;
    atom(alloc, term, table)
}

// The linear form of a term.
#[tactic(auto, using(crate::specs::Growing::growing))]
fn form(alloc: Global, term: &Term, table: &mut TermTable) -> Result<Form, GatherError>
    ensures numbered { OnOk result (terms_of table.new ≡ numbered (terms_of table.old) (sum_of term.now)) }
    ensures form { IfOk result (λ f. IsFormOf (terms_of table.new) f (sum_of term.now)) }
    ensures fit { OnOk result (IsFit (sum_of term.now)) }
    ensures past { IsErrOf result GatherError.Past → IsFit (sum_of term.now) → ⊥ }
    ensures grows { Extends (terms_of table.old) (terms_of table.new) }
{
    match term {
        Term::Whole(n) => Ok(Form::constant(alloc, *n)),
        Term::Neg(a) => {
            let inner = form(alloc, a, table)?;
            inner.times(alloc, -1)
        }
        Term::Add(a, b) => {
            let left = form(alloc, a, table)?;
            let right = form(alloc, b, table)?;
            left.plus(right)
        }
        Term::Sub(a, b) => {
            let left = form(alloc, a, table)?;
            let right = form(alloc, b, table)?;
            left.minus(right)
        }
        Term::Mul(a, b) => {
            if let Some(n) = a.literal() {
                let right = form(alloc, b, table)?;
                return right.times(alloc, n);
            }
            if let Some(n) = b.literal() {
                let left = form(alloc, a, table)?;
                return left.times(alloc, n);
            }
            application(alloc, term, a, b, table)
        }
        Term::Div(a, b) | Term::Mod(a, b) => application(alloc, term, a, b, table),
        Term::Var(_) | Term::Length(_) | Term::Measure(_, _) => atom(alloc, term, table),
    }
}

// The row of these coefficients, those that are 0 left out.
fn row_of(
    alloc: Global,
    coefficients: BTreeMap<u64, i128>,
    constant: i128,
    equal: bool,
) -> Result<LinearRow, AllocError>
    ensures constant { IfOk result (λ row. row.constant ≡ constant) }
    ensures equal { IfOk result (λ row. row.equal ≡ equal) }
    ensures formed { IfOk result IsRow }
    ensures coefficients { IfOk result (λ row. (q : ℕ) → entry row.parts q ≡ at coefficients q) }
{
    let parts = coefficients
        .into_iter()
        .filter(|part| part.1 != 0)
        .collect::<Vec<(u64, i128)>>(alloc)?;
    Ok(LinearRow::new(parts, constant, equal))
}

// left - right + added, where it is within 128 bits: the sums on the way may be past them.
fn whole_constant(left: i128, right: i128, added: i128) -> Option<i128>
    ensures { SomeIff result (FitsSigned w128 (left -ℤ right +ℤ added)) (left -ℤ right +ℤ added) }
{
    match left.checked_sub(right) {
        Some(difference) => difference.checked_add(added),
        None => left.checked_add(added)?.checked_sub(right),
    }
}

/// The row of `left - right + added`, read "at most 0", or "is 0" where `equal` is set. Terms that the
/// table lacks are added to it, an inner one before the outer.
#[tactic(auto, using(crate::specs::Growing::growing))]
pub fn gather(
    alloc: Global,
    left: &Term,
    right: &Term,
    added: i128,
    equal: bool,
    table: &mut TermTable,
) -> Result<LinearRow, GatherError>
    ensures numbered { OnOk result (terms_of table.new
        ≡ numbered (numbered (terms_of table.old) (sum_of left.now)) (sum_of right.now)) }
    ensures row { IfOk result (λ row. IsRowOf (terms_of table.new)
        (comparison (sum_of left.now) (sum_of right.now) added equal) row) }
    ensures can { OnOk result (CanGather (comparison (sum_of left.now) (sum_of right.now) added equal)) }
    ensures past { IsErrOf result GatherError.Past
        → CanGather (comparison (sum_of left.now) (sum_of right.now) added equal) → ⊥ }
    ensures grows { Extends (terms_of table.old) (terms_of table.new) }
{
    let first = form(alloc, left, table)?;
    let second = form(alloc, right, table)?;
    let Some(constant) = whole_constant(first.constant, second.constant, added) else {
        return Err(GatherError::Past);
    };
    let mut coefficients = first.coefficients;
    merge(true, &mut coefficients, second.coefficients)?;
    Ok(row_of(alloc, coefficients, constant, equal)?)
}
