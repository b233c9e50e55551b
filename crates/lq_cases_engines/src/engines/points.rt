// Cases of points: `point asked PREDICATE known HYPOTHESIS .. at NUMBER .. flags v0=yes .. classes v0=1 ..`.
ghost use Rattle.std.specs.Prelude.{◌≡◌, IfOk, IfSome};
ghost use Rattle.lq_logic_predicates.specs.ClosedImplication.{terms_in};
ghost use Rattle.lq_logic_predicates.specs.PredView.{implication_of};
ghost use Rattle.lq_logic_points.specs.Evaluation.{EvaluatesAll};
ghost use Rattle.lq_logic_points.specs.Values.{numbers_of, table_of, values_of};

use crate::engines::askable::all_fit;
use crate::engines::error::{CaseError, given};
use crate::engines::numbers::fraction;
use crate::engines::parsing::{Stacks, in_order, symbol};
use crate::engines::words::{cut, words_of};
use indexmap::IndexMap;
use lq_base_numbers::fractions::Frac;
use lq_logic_points::{Point, PointError, PointValues, gathered_readings_can_be_evaluated, holds};
use lq_logic_predicates::{Closed, Pred, Symbol, Term, tighten};
use std::alloc::Global;

/// What was read of an implication, from its last word on.
#[derive(Drop)]
struct Given {
    stacks: Stacks,
    known: Vec<Pred>,
    asked: Option<Pred>,
}

impl Given {
    fn take(&mut self, word: &str) -> Result<(), CaseError> {
        match word {
            "known" => {
                let pred = self.stacks.pred()?;
                self.known.push(pred)?;
            }
            "asked" => {
                let pred = self.stacks.pred()?;
                self.asked = Some(pred);
            }
            _ => self.stacks.take(word)?,
        }
        Ok(())
    }

    fn take_all(&mut self, words: &[&str]) -> Result<(), CaseError> {
        for word in words.iter().rev() {
            self.take(word)?;
        }
        Ok(())
    }

    fn into_parts(self) -> Result<(Vec<Pred>, Pred), CaseError> {
        if !self.stacks.is_done() {
            return Err(CaseError::NotACase);
        }
        let Given {
            stacks: _,
            known,
            asked,
        } = self;
        Ok((known, given(asked)?))
    }
}

/// The implication whose negated goal is what is asked, under what is known.
fn implication(alloc: Global, words: &[&str]) -> Result<Closed, CaseError> {
    let mut reading = Given {
        stacks: Stacks::new(alloc),
        known: Vec::new(alloc),
        asked: None,
    };
    reading.take_all(words)?;
    let (known, asked) = reading.into_parts()?;
    let goal = Pred::Not(Box::new(alloc, asked)?);
    let hypotheses = in_order(alloc, known)?;
    Ok(Closed { hypotheses, goal })
}

fn numbers(alloc: Global, text: &str) -> Result<Vec<Frac>, CaseError> {
    let mut made = Vec::new(alloc);
    for word in text.split_whitespace() {
        made.push(given(fraction(word))?)?;
    }
    Ok(made)
}

fn flags(alloc: Global, text: &str) -> Result<IndexMap<Symbol, bool>, CaseError> {
    let mut made = IndexMap::new(alloc);
    for word in text.split_whitespace() {
        let (name, value) = given(word.split_once('='))?;
        let holds = match value {
            "yes" => true,
            "no" => false,
            _ => return Err(CaseError::NotACase),
        };
        made.insert(given(symbol(name))?, holds)?;
    }
    Ok(made)
}

/// A variable and the number of its class: `v0=1`.
fn class_of(word: &str) -> Result<(Symbol, u64), CaseError> {
    let (name, value) = given(word.split_once('='))?;
    let class = given(value.parse::<u64>().ok())?;
    Ok((given(symbol(name))?, class))
}

fn classes(alloc: Global, text: &str) -> Result<IndexMap<Term, u64>, CaseError> {
    let mut made = IndexMap::new(alloc);
    for word in text.split_whitespace() {
        let (name, class) = class_of(word)?;
        made.insert(Term::Var(name), class)?;
    }
    Ok(made)
}

/// The values of a point, as they were given.
#[derive(Drop)]
struct Values {
    numbers: Vec<Frac>,
    flags: IndexMap<Symbol, bool>,
    classes: IndexMap<Term, u64>,
}

/// The point of the values, if they are one, over the implication's own table.
fn point_of(alloc: Global, implication: &Closed, values: Values) -> Result<Option<Point>, CaseError>
    ensures table { IfOk result (λ made. IfSome made (λ p. table_of (values_of p)
        ≡ terms_in (implication_of implication.now))) }
    ensures evaluates { IfOk result (λ made. IfSome made (λ p. EvaluatesAll (table_of (values_of p))
        (numbers_of (values_of p)) (implication_of implication.now))) }
{
    if !all_fit(alloc, implication)? {
        return Err(CaseError::Ungathered);
    }
    let table = implication.terms(alloc)?;
    let Values {
        numbers,
        flags,
        classes,
    } = values;
    let terms = table.len();
    if numbers.len() as u64 != terms {
        return Err(CaseError::NotACase);
    }
    let values = PointValues::new(numbers, flags, classes, table);
    match Point::new(alloc, values, implication) {
        Ok(made) => Ok(made),
        Err(PointError::Past(past)) => Err(CaseError::Past(past)),
        Err(PointError::Memory) => Err(CaseError::Memory),
    }
}

/// Whether the negated goal of the implication holds at its point.
fn negated_goal_holds(alloc: Global, point: &Point, implication: &Closed) -> Result<bool, CaseError>
    requires table { table_of (values_of point.now) ≡ terms_in (implication_of implication.now) }
    requires evaluates { EvaluatesAll (table_of (values_of point.now)) (numbers_of (values_of point.now))
        (implication_of implication.now) }
{
    gathered_readings_can_be_evaluated();
    let mut table = implication.terms(alloc)?;
    let _terms = table.len();
    match tighten(alloc, &implication.goal, false, &mut table) {
        Ok(nnf) => Ok(holds(point, &nnf)),
        Err(e) => Err(CaseError::from(e)),
    }
}

/// Whether what is asked holds at the point of the values, and None where they are no point.
fn asked_holds(
    alloc: Global,
    implication: &Closed,
    values: Values,
) -> Result<Option<bool>, CaseError> {
    match point_of(alloc, implication, values)? {
        Some(point) => Ok(Some(negated_goal_holds(alloc, &point, implication)?)),
        None => Ok(None),
    }
}

fn implication_of(alloc: Global, text: &str) -> Result<Closed, CaseError> {
    let words = words_of(alloc, text)?;
    implication(alloc, given(words.get(1..))?)
}

fn read_values(
    alloc: Global,
    numbers_text: &str,
    flags_text: &str,
    classes_text: &str,
) -> Result<Values, CaseError> {
    let numbers = numbers(alloc, numbers_text)?;
    let flags = flags(alloc, flags_text)?;
    let classes = classes(alloc, classes_text)?;
    Ok(Values {
        numbers,
        flags,
        classes,
    })
}

fn values_hold(
    alloc: Global,
    implication: &Closed,
    numbers_text: &str,
    flags_text: &str,
    classes_text: &str,
) -> Result<Option<bool>, CaseError> {
    let values = read_values(alloc, numbers_text, flags_text, classes_text)?;
    asked_holds(alloc, implication, values)
}

fn asked_of(alloc: Global, text: &str) -> Result<Option<bool>, CaseError> {
    let (front, classes_text) = cut(text, " classes ");
    let (front, flags_text) = cut(front, " flags ");
    let (front, numbers_text) = cut(front, " at ");
    let implication = implication_of(alloc, front)?;
    values_hold(alloc, &implication, numbers_text, flags_text, classes_text)
}

/// What is found of the values: they are no point, or what is asked holds or fails there.
pub(crate) fn pointed(alloc: Global, text: &str) -> Result<String, CaseError> {
    let found = match asked_of(alloc, text)? {
        None => "no point",
        Some(true) => "holds",
        Some(false) => "fails",
    };
    Ok(String::from_str(alloc, found)?)
}
