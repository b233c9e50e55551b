// Terms of measures with terms put for the fields.
ghost use Rattle.std.specs.Prelude.{◌≡◌, map, pos, slice_get, IfOk};
ghost use Rattle.lq_logic_predicates.specs.Sum.{len, whole};
ghost use Rattle.lq_logic_predicates.specs.TermView.{sum_of, term_items};
ghost use Rattle.lq_text_qualifiers.specs.Sorting.Views.{term_view, variable_view};
ghost use Rattle.lq_refined_measures.specs.Equations.Views.{name_of};
ghost use Rattle.lq_refined_measures.specs.Equations.Facts.{field_by, measured_by, operated, or_zero, with_fields};

use lq_base_names::ArithOp;
use lq_logic_predicates::{Term, Terms};
use lq_text_qualifiers::sorting::{ScopedMeasure, ScopedTerm, Variable};
use std::alloc::{AllocError, Global};

// The term of a field.
fn field(alloc: Global, fields: &Terms, at: usize) -> Result<Term, AllocError>
    ensures { IfOk result (λ t. sum_of t ≡ or_zero (slice_get (map sum_of (term_items fields.now)) at)) }
{
    match fields.get(at) {
        Some(term) => term.copy(alloc),
        None => Ok(Term::Whole(0)),
    }
}

// The term for a variable.
fn variable_term(alloc: Global, fields: &Terms, variable: Variable) -> Result<Term, AllocError>
    ensures { IfOk result (λ t. sum_of t
        ≡ field_by (map sum_of (term_items fields.now)) (variable_view variable)) }
{
    match variable {
        Variable::Field(at) => field(alloc, fields, at),
        Variable::Value | Variable::Placeholder(_) => Ok(Term::Whole(0)),
    }
}

// An operation on two terms.
fn operated(op: ArithOp, first: Box<Term>, second: Box<Term>) -> Term
    ensures { sum_of result ≡ operated op (sum_of first.value) (sum_of second.value) }
{
    match op {
        ArithOp::Add => Term::Add(first, second),
        ArithOp::Sub => Term::Sub(first, second),
        ArithOp::Mul => Term::Mul(first, second),
        ArithOp::Div => Term::Div(first, second),
        ArithOp::Mod => Term::Mod(first, second),
    }
}

// The length of a field.
fn length_term(alloc: Global, of: Term) -> Result<Term, AllocError>
    ensures { IfOk result (λ t. sum_of t ≡ len (sum_of of)) }
{
    Ok(Term::Length(Box::new(alloc, of)?))
}

// The measure of this number of a field.
fn measure_term(
    alloc: Global,
    measures: &[ScopedMeasure],
    at: usize,
    of: Term,
) -> Result<Term, AllocError>
    ensures { IfOk result (λ t. sum_of t
        ≡ measured_by (slice_get (map name_of measures.now) at) (sum_of of)) }
{
    match measures.get(at) {
        Some(measure) => Ok(Term::Measure(measure.name, Box::new(alloc, of)?)),
        None => Ok(Term::Whole(0)),
    }
}

/// A term of a measure with these terms put for its fields.
#[cycle(term)]
pub(crate) fn with_fields(
    alloc: Global,
    measures: &[ScopedMeasure],
    fields: &Terms,
    term: &ScopedTerm,
) -> Result<Term, AllocError>
    ensures { IfOk result (λ t. sum_of t ≡ with_fields (map name_of measures.now)
        (map sum_of (term_items fields.now)) (term_view term.now)) }
{
    match term {
        ScopedTerm::Whole(number) => Ok(Term::Whole(*number)),
        ScopedTerm::Var(variable) => variable_term(alloc, fields, *variable),
        ScopedTerm::Length(variable) => {
            length_term(alloc, variable_term(alloc, fields, *variable)?)
        }
        ScopedTerm::Measure(at, variable) => {
            let of = variable_term(alloc, fields, *variable)?;
            measure_term(alloc, measures, *at, of)
        }
        ScopedTerm::Arith(op, first, second) => Ok(operated(
            *op,
            boxed(alloc, measures, fields, first)?,
            boxed(alloc, measures, fields, second)?,
        )),
        ScopedTerm::Neg(part) => Ok(Term::Neg(boxed(alloc, measures, fields, part)?)),
    }
}

#[cycle(term)]
fn boxed(
    alloc: Global,
    measures: &[ScopedMeasure],
    fields: &Terms,
    term: &ScopedTerm,
) -> Result<Box<Term>, AllocError>
    ensures { IfOk result (λ b. sum_of b.value
        ≡ with_fields (map name_of measures.now)
        (map sum_of (term_items fields.now)) (term_view term.now)) }
{
    let made = with_fields(alloc, measures, fields, term)?;
    Ok(Box::new(alloc, made)?)
}
