// Whether an implication fails at a point, as it is told.
ghost use Rattle.std.specs.Prelude.{◌≡◌, IfOk, IfSome, length};
ghost use Rattle.lq_logic_points.specs.Evaluation.{EvaluatesAll};
ghost use Rattle.lq_logic_points.specs.Values.{numbers_of, table_of, values_of};
ghost use Rattle.lq_logic_predicates.specs.ClosedImplication.{terms_in};
ghost use Rattle.lq_logic_predicates.specs.PredView.{implication_of};
ghost use Rattle.lq_logic_predicates.specs.TableView.{terms_of};

use crate::solutions::error::CaseError;
use crate::solutions::reading::Problem;
use indexmap::IndexMap;
use lq_base_numbers::fractions::Frac;
use lq_cases_kit::refutes;
use lq_logic_points::{Point, PointError, PointValues};
use lq_logic_predicates::{Closed, Symbol, Term, TermTable};
use lq_prover_proof_tree::literals::first_past;
use lq_solve_fixpoint::questions::closed_implication;
use lq_solve_strongest::weaken::Chosen;
use std::alloc::{AllocError, Global};

// The number of a term.
fn number_of(values: &PointValues, term: &Term) -> Option<Frac> {
    let table = values.table();
    let at = table.find(term)?;
    if at < table.len() {
        Some(values.number(at))
    } else {
        None
    }
}

// The numbers of these terms, and None where one has none.
fn numbers_for(
    alloc: Global,
    values: &PointValues,
    terms: &TermTable,
) -> Result<Option<Vec<Frac>>, AllocError>
    ensures { IfOk result (λ made. IfSome made (λ numbers. length numbers.items ≡ length (terms_of terms.now))) }
{
    let mut numbers = Vec::new(alloc);
    for at in 0..terms.len() {
        match number_of(values, terms.term(at)) {
            Some(number) => numbers.push(number)?,
            None => return Ok(None),
        }
    }
    Ok(Some(numbers))
}

fn copied_flags(
    alloc: Global,
    flags: &IndexMap<Symbol, bool>,
) -> Result<IndexMap<Symbol, bool>, AllocError> {
    let mut copied = IndexMap::new(alloc);
    for (symbol, value) in flags.iter() {
        copied.insert(*symbol, *value)?;
    }
    Ok(copied)
}

fn copied_classes(
    alloc: Global,
    classes: &IndexMap<Term, u64>,
) -> Result<IndexMap<Term, u64>, AllocError> {
    let mut copied = IndexMap::new(alloc);
    for (object, class) in classes.iter() {
        copied.insert(object.copy(alloc)?, *class)?;
    }
    Ok(copied)
}

// The values of a point for the terms of an implication, and None where one has none.
fn values_for(
    alloc: Global,
    implication: &Closed,
    values: &PointValues,
) -> Result<Option<PointValues>, AllocError>
    ensures { IfOk result (λ made. IfSome made (λ v. table_of v ≡ terms_in (implication_of implication.now))) }
{
    let table = implication.terms(alloc)?;
    let Some(numbers) = numbers_for(alloc, values, &table)? else {
        return Ok(None);
    };
    let flags = copied_flags(alloc, values.flags())?;
    let classes = copied_classes(alloc, values.classes())?;
    Ok(Some(PointValues::new(numbers, flags, classes, table)))
}

// The point of these values, and None where they are none of the implication.
fn point_of(
    alloc: Global,
    implication: &Closed,
    values: PointValues,
) -> Result<Option<Point>, CaseError>
    requires { table_of values ≡ terms_in (implication_of implication.now) }
    ensures table { IfOk result (λ made. IfSome made (λ p. table_of (values_of p)
        ≡ terms_in (implication_of implication.now))) }
    ensures evaluates { IfOk result (λ made. IfSome made (λ p. EvaluatesAll (table_of (values_of p))
        (numbers_of (values_of p)) (implication_of implication.now))) }
{
    match first_past(alloc, implication)? {
        Some(_past) => return Err(CaseError::Ungathered),
        None => {}
    }
    match Point::new(alloc, values, implication) {
        Ok(made) => Ok(made),
        Err(PointError::Past(past)) => Err(CaseError::Past(past)),
        Err(PointError::Memory) => Err(CaseError::Memory),
    }
}

// Whether an implication has the point, which meets its hypotheses and its negated goal.
fn fails_at(alloc: Global, implication: &Closed, point: &Point) -> Result<bool, CaseError> {
    let Some(values) = values_for(alloc, implication, point.values())? else {
        return Ok(false);
    };
    match point_of(alloc, implication, values)? {
        Some(again) => Ok(refutes(alloc, implication, &again)?),
        None => Ok(false),
    }
}

/// Whether the implication of a number fails at a point under the chosen instances.
pub(crate) fn is_checked(
    alloc: Global,
    problem: &Problem,
    at: u64,
    chosen: &Chosen,
    point: &Point,
) -> Result<bool, CaseError> {
    let Ok(at) = u32::try_from(at) else {
        return Ok(false);
    };
    let implications = &problem.implications;
    match closed_implication(alloc, implications, at, &problem.instances, chosen)? {
        Some(closed) => fails_at(alloc, &closed, point),
        None => Ok(false),
    }
}
