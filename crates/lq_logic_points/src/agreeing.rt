// The condition of a point on two terms.
ghost use Rattle.std.specs.Prelude.{◌≡◌, ◌↔◌, ◌⊎◌, ◌<◌, ℕ, Bool, List, IsTrue, IfOk, IfErr, OnOk, [], ◌∷◌, All, length, pos, negsuc, Some, slice_get, unwrap_or, get_or, None};
ghost use Rattle.lq_logic_rows.specs.Steps.{valuation_of};
ghost use Rattle.lq_base_numbers.specs.Rationals.Rational.{ℚ, whole, ◌-ℚ◌};
ghost use Rattle.lq_base_numbers.specs.Rationals.RationalOrder.{◌≤ℚ◌};
ghost use Rattle.lq_base_numbers.specs.Fractions.Past.{IsPast};
ghost use Rattle.lq_base_numbers.specs.Fractions.Value.{value_of};
ghost use Rattle.lq_base_numbers.specs.declared.fractions.past.NumberPast.{NumberPast};
ghost use Rattle.lq_logic_predicates.specs.declared.symbol.Symbol.{Symbol};
ghost use Rattle.lq_logic_predicates.specs.declared.term.Term.{Term};
ghost use Rattle.lq_logic_predicates.specs.Comparison.{CanGather};
ghost use Rattle.lq_logic_predicates.specs.ClosedImplication.{Agree, AgreeOrApart};
ghost use Rattle.lq_logic_predicates.specs.Literals.{equal_row, condition_rows, pair_rows, all_pairs};
ghost use Rattle.lq_logic_predicates.specs.Points.{form_at};
ghost use Rattle.lq_logic_predicates.specs.Sum.{Sum};
ghost use Rattle.lq_logic_predicates.specs.Table.{index_of, numbered, has_term};
ghost use Rattle.lq_logic_predicates.specs.TableView.{terms_of};
ghost use Rattle.lq_logic_predicates.specs.TermView.{sum_of};
ghost use Rattle.lq_logic_points.specs.Arguments.{HasArguments};
ghost use Rattle.lq_logic_points.specs.Evaluation.{IsStepOf};
ghost use Rattle.lq_logic_points.specs.Function.{applied};
ghost use Rattle.lq_logic_points.specs.Values.{class_value, point_from};

use crate::error::PointError;
use crate::holding::is_at_most;
use indexmap::IndexMap;
use lq_base_names::Name;
use lq_base_numbers::fractions::Frac;
use lq_logic_predicates::{GatherError, Term, TermTable, gather, rows_say_what_comparisons_say};
use lq_logic_rows::level_at;
use std::alloc::Global;
use std::cmp::Ordering;

// A function that a term may apply.
#[derive(Clone, Copy, PartialEq, Eq, Hash)]
pub(crate) enum Function {
    Product,
    Quotient,
    Remainder,
    Length,
    Measure(Name),
}

// The function that a term applies.
pub(crate) fn function_of(term: &Term) -> Option<Function>
    ensures { result ≡ applied (sum_of term.now) }
{
    match term {
        Term::Mul(_, _) => Some(Function::Product),
        Term::Div(_, _) => Some(Function::Quotient),
        Term::Mod(_, _) => Some(Function::Remainder),
        Term::Length(_) => Some(Function::Length),
        Term::Measure(name, _) => Some(Function::Measure(*name)),
        Term::Whole(_) | Term::Var(_) | Term::Neg(_) | Term::Add(_, _) | Term::Sub(_, _) => None,
    }
}

// left - right: the level of the row that says that they are equal.
fn difference(
    alloc: Global,
    left: &Term,
    right: &Term,
    numbers: &[Frac],
    table: &mut TermTable,
) -> Result<Frac, PointError>
    requires has { numbered (numbered (terms_of table.old) (sum_of left.now)) (sum_of right.now)
        ≡ terms_of table.old }
    requires fits { CanGather (equal_row (sum_of left.now) (sum_of right.now)) }
    requires one_each { length numbers.now ≡ length (terms_of table.old) }
    ensures same { OnOk result (terms_of table.new ≡ terms_of table.old) }
    ensures value { IfOk result (λ f. (flags : List (Symbol × Bool)) (classes : List (Term × ℕ))
        → let p = point_from (terms_of table.old) numbers.now flags classes in value_of f
        ≡ form_at p (sum_of left.now) -ℚ form_at p (sum_of right.now)) }
    ensures past { IfErr result (λ e. (n : NumberPast) → e ≡ PointError.Past n → IsPast n) }
    ensures step { IfErr result (λ e. (n : NumberPast) → e ≡ PointError.Past n
        → IsStepOf (equal_row (sum_of left.now) (sum_of right.now) ∷ [])
        (terms_of table.old) numbers.now n) }
{
    rows_say_what_comparisons_say();
    let _terms = table.len();
    match gather(alloc, left, right, 0, true, table) {
        Ok(row) => Ok(level_at(&row, numbers)?),
        Err(GatherError::Memory) => Err(PointError::Memory),
        Err(GatherError::Past) => unreachable!(),
    }
}

// Whether two numbers with this difference are at least 1 apart.
fn is_apart(difference: &Frac) -> bool
    ensures { IsTrue result ↔ ((value_of difference.now ≤ℚ whole (negsuc 0))
        ⊎ (whole (pos 1) ≤ℚ value_of difference.now)) }
{
    is_at_most(difference, &Frac::whole(-1)) || is_at_most(&Frac::whole(1), difference)
}

fn is_equal(left: &Frac, right: &Frac) -> bool
    ensures { IsTrue result ↔ (value_of left.now ≡ value_of right.now) }
{
    match left.cmp(right) {
        Ordering::Equal => true,
        Ordering::Less | Ordering::Greater => false,
    }
}

// The number of a term, and 0 where the table lacks it.
fn number_of(term: &Term, numbers: &[Frac], table: &TermTable) -> Frac
    requires { length numbers.now ≡ length (terms_of table.now) }
    ensures { value_of result ≡ valuation_of numbers.now (index_of (terms_of table.now) (sum_of term.now)) }
{
    let Some(at) = table.find(term) else {
        return Frac::whole(0);
    };
    numbers[at as usize]
}

// Whether two terms have one number.
fn is_same_number(left: &Term, right: &Term, numbers: &[Frac], table: &TermTable) -> bool
    requires { length numbers.now ≡ length (terms_of table.now) }
    ensures { IsTrue result ↔ (valuation_of numbers.now (index_of (terms_of table.now) (sum_of left.now))
        ≡ valuation_of numbers.now (index_of (terms_of table.now) (sum_of right.now))) }
{
    is_equal(
        &number_of(left, numbers, table),
        &number_of(right, numbers, table),
    )
}

// The class of an object, and 0 where none is given.
fn class_of(object: &Term, classes: &IndexMap<Term, u64>) -> u64
    ensures { result ≡ unwrap_or (class_value classes.now.entries (sum_of object.now)) 0 }
{
    classes.get(object).copied().unwrap_or(0)
}

// Whether two applications of a function of an object have equal values where their objects have one class.
fn values_agree(
    left: &Term,
    left_object: &Term,
    right: &Term,
    right_object: &Term,
    numbers: &[Frac],
    classes: &IndexMap<Term, u64>,
    table: &TermTable,
) -> bool
    requires { length numbers.now ≡ length (terms_of table.now) }
    ensures { IsTrue result ↔ (unwrap_or (class_value classes.now.entries (sum_of left_object.now)) 0
        ≡ unwrap_or (class_value classes.now.entries (sum_of right_object.now)) 0
        → valuation_of numbers.now (index_of (terms_of table.now) (sum_of left.now))
        ≡ valuation_of numbers.now (index_of (terms_of table.now) (sum_of right.now))) }
{
    if class_of(left_object, classes) != class_of(right_object, classes) {
        return true;
    }
    is_same_number(left, right, numbers, table)
}

fn are_zero(first: &Frac, second: &Frac) -> bool
    ensures { IsTrue result ↔ ((value_of first.now ≡ whole (pos 0)) × (value_of second.now ≡ whole (pos 0))) }
{
    first.is_zero() && second.is_zero()
}

// Whether two applications of a function of two numbers have equal arguments and results, or some arguments
// apart.
fn arguments_agree(
    alloc: Global,
    left: (&Term, &Term),
    right: (&Term, &Term),
    same_result: bool,
    numbers: &[Frac],
    table: &mut TermTable,
) -> Result<bool, PointError>
    requires left_first { numbered (terms_of table.old) (sum_of left.0.now) ≡ terms_of table.old }
    requires left_second { numbered (terms_of table.old) (sum_of left.1.now) ≡ terms_of table.old }
    requires right_first { numbered (terms_of table.old) (sum_of right.0.now) ≡ terms_of table.old }
    requires right_second { numbered (terms_of table.old) (sum_of right.1.now) ≡ terms_of table.old }
    requires first_fits { CanGather (equal_row (sum_of left.0.now) (sum_of right.0.now)) }
    requires second_fits { CanGather (equal_row (sum_of left.1.now) (sum_of right.1.now)) }
    requires one_each { length numbers.now ≡ length (terms_of table.old) }
    ensures same { OnOk result (terms_of table.new ≡ terms_of table.old) }
    ensures answer { IfOk result (λ answer. (flags : List (Symbol × Bool)) (classes : List (Term × ℕ))
        (r s : ℚ) → (IsTrue same_result ↔ (r ≡ s)) → IsTrue answer
        ↔ AgreeOrApart (point_from (terms_of table.old) numbers.now flags classes) (sum_of left.entry.0.now)
        (sum_of left.entry.1.now) (sum_of right.entry.0.now) (sum_of right.entry.1.now) r s) }
    ensures past { IfErr result (λ e. (n : NumberPast) → e ≡ PointError.Past n → IsPast n) }
    ensures step { IfErr result (λ e. (n : NumberPast) → e ≡ PointError.Past n
        → IsStepOf (equal_row (sum_of left.entry.0.now) (sum_of right.entry.0.now)
        ∷ (equal_row (sum_of left.entry.1.now) (sum_of right.entry.1.now) ∷ []))
        (terms_of table.old) numbers.now n) }
{
    let first = difference(alloc, left.0, right.0, numbers, table)?;
    if is_apart(&first) {
        return Ok(true);
    }
    let second = difference(alloc, left.1, right.1, numbers, table)?;
    if is_apart(&second) {
        return Ok(true);
    }
    Ok(are_zero(&first, &second) && same_result)
}

// Whether two terms meet the condition on two applications of one function. Terms that apply none, or two
// functions, meet it.
pub(crate) fn agree(
    alloc: Global,
    left: &Term,
    right: &Term,
    numbers: &[Frac],
    classes: &IndexMap<Term, u64>,
    table: &mut TermTable,
) -> Result<bool, PointError>
    requires left { HasArguments (terms_of table.old) (sum_of left.now) }
    requires right { HasArguments (terms_of table.old) (sum_of right.now) }
    requires fits { All CanGather (pair_rows (sum_of left.now) (sum_of right.now)) }
    requires one_each { length numbers.now ≡ length (terms_of table.old) }
    ensures same { OnOk result (terms_of table.new ≡ terms_of table.old) }
    ensures answer { IfOk result (λ answer. (flags : List (Symbol × Bool)) → IsTrue answer
        ↔ Agree (point_from (terms_of table.old) numbers.now flags classes.now.entries) (sum_of left.now)
        (sum_of right.now)) }
    ensures past { IfErr result (λ e. (n : NumberPast) → e ≡ PointError.Past n → IsPast n) }
    ensures step { IfErr result (λ e. (n : NumberPast) → e ≡ PointError.Past n
        → IsStepOf (pair_rows (sum_of left.now) (sum_of right.now)) (terms_of table.old) numbers.now n) }
{
    match left {
        Term::Mul(a, b) => match right {
            Term::Mul(c, d) => {
                let same = is_same_number(left, right, numbers, table);
                arguments_agree(alloc, (a, b), (c, d), same, numbers, table)
            }
            _ => Ok(true),
        },
        Term::Div(a, b) => match right {
            Term::Div(c, d) => {
                let same = is_same_number(left, right, numbers, table);
                arguments_agree(alloc, (a, b), (c, d), same, numbers, table)
            }
            _ => Ok(true),
        },
        Term::Mod(a, b) => match right {
            Term::Mod(c, d) => {
                let same = is_same_number(left, right, numbers, table);
                arguments_agree(alloc, (a, b), (c, d), same, numbers, table)
            }
            _ => Ok(true),
        },
        Term::Length(a) => match right {
            Term::Length(b) => Ok(values_agree(left, a, right, b, numbers, classes, table)),
            _ => Ok(true),
        },
        Term::Measure(f, a) => match right {
            Term::Measure(g, b) => {
                Ok(*f != *g || values_agree(left, a, right, b, numbers, classes, table))
            }
            _ => Ok(true),
        },
        Term::Whole(_) | Term::Var(_) | Term::Neg(_) | Term::Add(_, _) | Term::Sub(_, _) => {
            Ok(true)
        }
    }
}
