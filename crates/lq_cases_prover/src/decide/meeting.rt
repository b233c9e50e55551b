// Whether each literal holds at a point, and the point gives lengths and measures of one object one number.
use crate::decide::error::{CaseError, given};
use lq_base_numbers::fractions::Frac;
use lq_logic_points::{Point, PointValues};
use lq_logic_predicates::Term;
use lq_logic_rows::LinearRow;
use lq_prover_decide::{Fact, Literals};

/// The number that the term at this place of the table has.
fn number(values: &PointValues, term: u64) -> Option<Frac> {
    if term < values.table().len() {
        Some(values.number(term))
    } else {
        None
    }
}

/// The class of an object, 0 where it has none.
fn class(values: &PointValues, object: &Term) -> u64 {
    values.class(object).unwrap_or(0)
}

fn row_holds(row: &LinearRow, values: &PointValues) -> Result<bool, CaseError> {
    let mut level = Frac::whole(row.constant());
    for (term, coefficient) in row.parts() {
        let number = given(number(values, *term))?;
        level = level.add(&number.mul(&Frac::whole(*coefficient))?)?;
    }
    Ok(level.is_zero() || (level.numer() < 0 && !row.equal()))
}

fn fact_holds(fact: &Fact, values: &PointValues) -> Result<bool, CaseError> {
    match fact {
        Fact::Row(row) => row_holds(row, values),
        Fact::Flag(flag, value) => Ok(values.flag(*flag).unwrap_or(false) == *value),
        Fact::Same(left, right, one) => Ok((class(values, left) == class(values, right)) == *one),
    }
}

/// Whether two terms are no lengths, or values of one measure, of objects of one class, or have one number.
fn agree(values: &PointValues, first: u64, second: u64) -> bool {
    let table = values.table();
    if first >= table.len() || second >= table.len() {
        return false;
    }
    let (left, right) = match (table.term(first), table.term(second)) {
        (Term::Length(a), Term::Length(b)) => (a, b),
        (Term::Measure(f, a), Term::Measure(g, b)) if *f == *g => (a, b),
        _ => return true,
    };
    class(values, left) != class(values, right) || values.number(first) == values.number(second)
}

fn all_agree(values: &PointValues) -> bool {
    let count = values.table().len();
    for second in 0..count {
        for first in 0..second {
            if !agree(values, first, second) {
                return false;
            }
        }
    }
    true
}

/// Whether each literal of a case holds at a point, and lengths and measures of objects of one class are equal there.
pub(crate) fn is_met(literals: &Literals, point: &Point) -> Result<bool, CaseError> {
    let values = point.values();
    for fact in literals.facts().as_slice() {
        if !fact_holds(fact, values)? {
            return Ok(false);
        }
    }
    Ok(all_agree(values))
}
