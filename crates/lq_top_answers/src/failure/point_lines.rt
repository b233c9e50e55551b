// The lines on a point.
ghost use Rattle.std.specs.Prelude.{◌≡◌, ◌<◌, ◌++◌, ◌∷◌, [], List, ℕ, Some, length, nat_eq, slice_get, IfOk, OnOk};
ghost use Rattle.lq_base_numbers.specs.Rationals.LowestTerms.{IsLowest};
ghost use Rattle.lq_base_numbers.specs.Fractions.Value.{denom_of, numer_of};
ghost use Rattle.lq_logic_predicates.specs.PredView.{implication_of};
ghost use Rattle.lq_logic_predicates.specs.Sum.{var};
ghost use Rattle.lq_logic_predicates.specs.TermView.{sum_of};
ghost use Rattle.lq_logic_text.specs.Views.{calling_view, IsTold};
ghost use Rattle.lq_logic_points.specs.Values.{as_point, point_of_values};
ghost use Rattle.lq_top_answers.specs.Failure.Adding.{AddsLine, AddsLines};
ghost use Rattle.lq_top_answers.specs.Failure.Collected.{valued_view, valued_views, value_view, with_each, with_one};
ghost use Rattle.lq_top_answers.specs.Failure.PointLines.{at_truth, at_class, class_number, classes_of, label, value_text, IsValue, ShowsPoint};

use crate::failure::collecting::{Valued, collect};
use crate::failure::numbers::{push_count, push_fraction};
use indexmap::IndexSet;
use lq_base_numbers::fractions::Frac;
use lq_logic_points::{Point, PointValues};
use lq_logic_predicates::{Closed, Symbol, Term};
use lq_logic_text::{Calling, push_symbol, push_term};
use std::alloc::{AllocError, Global};

/// A value at a point: of a class of objects its number.
#[derive(Clone, Copy)]
pub(crate) enum PointValue {
    Number(Frac),
    Truth(bool),
    Class(usize),
}

// The number of a term, and 0 where it has none.
fn number_at(values: &PointValues, term: &Term) -> Frac
    ensures { IsLowest ((point_of_values values.now).number (sum_of term.now)) (numer_of result)
        (denom_of result) }
{
    match values.table().find(term) {
        Some(at) => values.number(at),
        None => Frac::whole(0),
    }
}

fn truth_at(values: &PointValues, symbol: Symbol) -> bool
    ensures { result ≡ (point_of_values values.now).holds symbol }
{
    values.flag(symbol).unwrap_or(false)
}

fn class_at(values: &PointValues, symbol: Symbol) -> u64
    ensures { result ≡ (point_of_values values.now).class_of (var symbol) }
{
    values.class(&Term::Var(symbol)).unwrap_or(0)
}

// Writes what has a value.
fn push_label(
    line: &mut Vec<u8>,
    calling: &Calling<'_>,
    valued: &Valued<'_>,
) -> Result<(), AllocError>
    requires { IsTold calling.now }
    ensures { OnOk result (line.new.items ≡ line.old.items
        ++ label (calling_view calling.now) (valued_view valued.now)) }
{
    match valued {
        Valued::Number(term) => push_term(line, calling, term),
        Valued::Truth(x) | Valued::Object(x) => push_symbol(line, calling, *x),
    }
}

fn truth_word(truth: bool) -> &'static [u8]
    ensures { result.now ≡ value_text (at_truth truth) }
{
    if truth { b"true" } else { b"false" }
}

fn push_class(line: &mut Vec<u8>, number: usize) -> Result<(), AllocError>
    ensures { OnOk result (line.new.items ≡ line.old.items ++ value_text (at_class number)) }
{
    line.extend_from_slice(b"object ")?;
    push_count(line, number as u64)
}

// Writes a value.
fn push_value(line: &mut Vec<u8>, value: &PointValue) -> Result<(), AllocError>
    ensures { OnOk result (line.new.items ≡ line.old.items ++ value_text (value_view value.now)) }
{
    match value {
        PointValue::Number(f) => push_fraction(line, f),
        PointValue::Truth(truth) => line.extend_from_slice(truth_word(*truth)),
        PointValue::Class(number) => push_class(line, *number),
    }
}

// The number of a class, the next one where it has none.
fn class_number(classes: &mut IndexSet<u64>, class: u64) -> Result<usize, AllocError>
    ensures number { IfOk result (λ n. n ≡ class_number classes.new.keys class) }
    ensures added { OnOk result (classes.new.keys ≡ with_one nat_eq classes.old.keys class) }
{
    let (at, _) = classes.insert_full(class)?;
    let count = classes.len();
    prove!(at < count);
    Ok(at + 1)
}

// The value at the point.
fn value_at(
    classes: &mut IndexSet<u64>,
    values: &PointValues,
    valued: &Valued<'_>,
) -> Result<PointValue, AllocError>
    ensures is { IfOk result (λ v. IsValue (point_of_values values.now) classes.new.keys
        (valued_view valued.now) (value_view v)) }
    ensures numbered { OnOk result (classes.new.keys ≡ with_each nat_eq classes.old.keys
        (classes_of (point_of_values values.now) (valued_view valued.now ∷ []))) }
{
    match valued {
        Valued::Number(term) => Ok(PointValue::Number(number_at(values, term))),
        Valued::Truth(x) => Ok(PointValue::Truth(truth_at(values, *x))),
        Valued::Object(x) => {
            let number = class_number(classes, class_at(values, *x))?;
            Ok(PointValue::Class(number))
        }
    }
}

// Writes the line on what has a value at the point.
fn push_value_line(
    line: &mut Vec<u8>,
    calling: &Calling<'_>,
    classes: &mut IndexSet<u64>,
    values: &PointValues,
    valued: &Valued<'_>,
) -> Result<(), AllocError>
    requires { IsTold calling.now }
    ensures { OnOk result (AddsLine (calling_view calling.now) (point_of_values values.now)
        (valued_view valued.now) line.old.items line.new.items classes.old.keys classes.new.keys) }
{
    let value = value_at(classes, values, valued)?;
    push_label(line, calling, valued)?;
    line.extend_from_slice(b" = ")?;
    push_value(line, &value)?;
    line.extend_from_slice(b"\n")?;
    Ok(())
}

// The one at a place.
fn valued_at<'a>(seen: &IndexSet<Valued<'a>>, at: usize) -> Valued<'a>
    requires { at < length seen.now.keys }
    ensures { slice_get (valued_views seen.now.keys) at ≡ Some (valued_view result) }
{
    seen[at]
}

// Writes the lines on these, each with its value.
fn push_lines(
    alloc: Global,
    line: &mut Vec<u8>,
    calling: &Calling<'_>,
    seen: &IndexSet<Valued<'_>>,
    values: &PointValues,
) -> Result<(), AllocError>
    requires { IsTold calling.now }
    ensures { OnOk result (AddsLines (calling_view calling.now) (point_of_values values.now)
        (valued_views seen.now.keys) line.old.items line.new.items) }
{
    let mut classes = IndexSet::new(alloc);
    for at in 0..seen.len() {
        let valued = valued_at(seen, at);
        push_value_line(line, calling, &mut classes, values, &valued)?;
    }
    Ok(())
}

/// Writes the lines on a point of an implication behind the bytes.
pub(crate) fn push_point(
    alloc: Global,
    line: &mut Vec<u8>,
    calling: &Calling<'_>,
    closed: &Closed,
    point: &Point,
) -> Result<(), AllocError>
    requires { IsTold calling.now }
    ensures { OnOk result ((lines : List ℕ) × (line.new.items ≡ line.old.items ++ lines)
        × ShowsPoint (calling_view calling.now) (implication_of closed.now) (as_point point.now) lines) }
{
    let seen = collect(alloc, closed)?;
    let values = point.values();
    push_lines(alloc, line, calling, &seen, values)?;
    Ok(())
}
