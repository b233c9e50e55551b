// Whether each literal of an implication can be gathered, which a point asks for.
ghost use Rattle.std.specs.Prelude.{◌≡◌, ◌<◌, IsTrue, IfOk, All, length, pos, true};
ghost use Rattle.lq_logic_predicates.specs.Comparison.{comparison, CanGather};
ghost use Rattle.lq_logic_predicates.specs.Literals.{equal_row, below_row, condition_rows, pair_rows, all_pairs, implication_literals};
ghost use Rattle.lq_logic_predicates.specs.PredView.{formula_of, implication_of};
ghost use Rattle.lq_logic_predicates.specs.Reading.{reading_of, AllFitIn};
ghost use Rattle.lq_logic_predicates.specs.TableView.{terms_of};
ghost use Rattle.lq_logic_predicates.specs.TermView.{sum_of};
ghost use Rattle.lq_cases_engines.specs.Engines.Askable.{SidesFit, EarlierFit};

use lq_logic_predicates::{Closed, GatherError, Pred, Term, TermTable, gather, tighten};
use std::alloc::{AllocError, Global};

fn row_fits(
    alloc: Global,
    left: &Term,
    right: &Term,
    added: i128,
    equal: bool,
) -> Result<bool, AllocError>
    ensures { IfOk result (λ fits. IsTrue fits → CanGather
        (comparison (sum_of left.now) (sum_of right.now) added equal)) }
{
    let mut table = TermTable::new(alloc)?;
    match gather(alloc, left, right, added, equal, &mut table) {
        Ok(_) => Ok(true),
        Err(GatherError::Past) => Ok(false),
        Err(GatherError::Memory) => Err(AllocError),
    }
}

// The rows that two arguments are equal, and that they are apart either way.
fn sides_fit(alloc: Global, left: &Term, right: &Term) -> Result<bool, AllocError>
    ensures { IfOk result (λ fits. IsTrue fits → SidesFit (sum_of left.now) (sum_of right.now)) }
{
    if !row_fits(alloc, left, right, 0, true)? {
        return Ok(false);
    }
    if !row_fits(alloc, left, right, 1, false)? {
        return Ok(false);
    }
    row_fits(alloc, right, left, 1, false)
}

// The rows of the condition on two applications of a function of two numbers.
fn arguments_fit(
    alloc: Global,
    left: &Term,
    left_first: &Term,
    left_second: &Term,
    right: &Term,
    right_first: &Term,
    right_second: &Term,
) -> Result<bool, AllocError>
    ensures { IfOk result (λ fits. IsTrue fits → All CanGather
        (condition_rows (sum_of left.now) (sum_of left_first.now) (sum_of left_second.now)
        (sum_of right.now) (sum_of right_first.now) (sum_of right_second.now))) }
{
    if !sides_fit(alloc, left_first, right_first)? {
        return Ok(false);
    }
    if !sides_fit(alloc, left_second, right_second)? {
        return Ok(false);
    }
    row_fits(alloc, left, right, 0, true)
}

// The rows of the condition on two terms.
fn pair_fits(alloc: Global, left: &Term, right: &Term) -> Result<bool, AllocError>
    ensures { IfOk result (λ fits. IsTrue fits → All CanGather
        (pair_rows (sum_of left.now) (sum_of right.now))) }
{
    match left {
        Term::Mul(a, b) => match right {
            Term::Mul(c, d) => arguments_fit(alloc, left, a, b, right, c, d),
            _ => Ok(true),
        },
        Term::Div(a, b) => match right {
            Term::Div(c, d) => arguments_fit(alloc, left, a, b, right, c, d),
            _ => Ok(true),
        },
        Term::Mod(a, b) => match right {
            Term::Mod(c, d) => arguments_fit(alloc, left, a, b, right, c, d),
            _ => Ok(true),
        },
        Term::Length(_) => match right {
            Term::Length(_) => row_fits(alloc, left, right, 0, true),
            _ => Ok(true),
        },
        Term::Measure(_, _) => match right {
            Term::Measure(_, _) => row_fits(alloc, left, right, 0, true),
            _ => Ok(true),
        },
        Term::Whole(_) | Term::Var(_) | Term::Neg(_) | Term::Add(_, _) | Term::Sub(_, _) => {
            Ok(true)
        }
    }
}

// The rows of the term at a place with each one before it.
fn earlier_fit(alloc: Global, terms: &TermTable, at: u64) -> Result<bool, AllocError>
    requires { at < length (terms_of terms.now) }
    ensures { IfOk result (λ fits. IsTrue fits → EarlierFit (terms_of terms.now) at at) }
{
    let term = terms.term(at);
    for before in 0..at {
        if !pair_fits(alloc, terms.term(before), term)? {
            return Ok(false);
        }
    }
    Ok(true)
}

fn pairs_fit(alloc: Global, terms: &TermTable) -> Result<bool, AllocError>
    ensures { IfOk result (λ fits. IsTrue fits → All CanGather (all_pairs (terms_of terms.now))) }
{
    for at in 0..terms.len() {
        if !earlier_fit(alloc, terms, at)? {
            return Ok(false);
        }
    }
    Ok(true)
}

pub(crate) fn reading_fits(alloc: Global, pred: &Pred, positive: bool) -> Result<bool, AllocError>
    ensures { IfOk result (λ fits. IsTrue fits → AllFitIn (reading_of positive (formula_of pred.now))) }
{
    let mut table = TermTable::new(alloc)?;
    match tighten(alloc, pred, positive, &mut table) {
        Ok(_) => Ok(true),
        Err(GatherError::Past) => Ok(false),
        Err(GatherError::Memory) => Err(AllocError),
    }
}

fn readings_fit(alloc: Global, preds: &[Pred]) -> Result<bool, AllocError>
    ensures { IfOk result (λ fits. IsTrue fits → All
        (λ p. AllFitIn (reading_of true (formula_of p))) preds.now) }
{
    for pred in preds {
        if !reading_fits(alloc, pred, true)? {
            return Ok(false);
        }
    }
    Ok(true)
}

// Whether each literal of the implication can be gathered.
pub(crate) fn all_fit(alloc: Global, implication: &Closed) -> Result<bool, AllocError>
    ensures { IfOk result (λ fits. IsTrue fits → All CanGather
        (implication_literals (implication_of implication.now))) }
{
    if !readings_fit(alloc, implication.hypotheses.as_slice())? {
        return Ok(false);
    }
    if !reading_fits(alloc, &implication.goal, false)? {
        return Ok(false);
    }
    let terms = implication.terms(alloc)?;
    pairs_fit(alloc, &terms)
}
