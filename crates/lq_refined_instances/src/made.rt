// Predicates of qualifiers with symbols put for their placeholders.
ghost use Rattle.std.specs.Prelude.{◌≡◌, map, slice_get, IfOk};
ghost use Rattle.lq_logic_predicates.specs.PredView.{formula_of};
ghost use Rattle.lq_logic_predicates.specs.Sum.{len, var};
ghost use Rattle.lq_logic_predicates.specs.TermView.{sum_of};
ghost use Rattle.lq_text_qualifiers.specs.Sorting.Views.{predicate_view, term_view, variable_view};
ghost use Rattle.lq_refined_instances.specs.Made.{constant_by, instance_by, measure_by, operated, symbol_by, term_by};
ghost use Rattle.lq_refined_instances.specs.Views.{measure_name};

use lq_base_names::ArithOp;
use lq_logic_predicates::{Pred, Symbol, Term};
use lq_text_qualifiers::sorting::{ScopedMeasure, ScopedPred, ScopedTerm, Variable};
use std::alloc::{AllocError, Global};

// The symbol for a variable.
fn symbol_for(symbols: &[Symbol], variable: Variable) -> Symbol
    ensures { result ≡ symbol_by symbols.now (variable_view variable) }
{
    match variable {
        Variable::Value | Variable::Field(_) => Symbol::Value,
        Variable::Placeholder(at) => match symbols.get(at) {
            Some(symbol) => *symbol,
            None => Symbol::Value,
        },
    }
}

// An operation on two terms.
fn operated(op: ArithOp, first: Box<Term>, second: Box<Term>) -> Term
    ensures { sum_of result ≡ operated op (sum_of first.value) (sum_of second.value) }
{
    match op {
        ArithOp::Add => Term::Add(first, second),
        ArithOp::Sub => Term::Sub(first, second),
        ArithOp::Mul => Term::Mul(first, second),
        ArithOp::Div => Term::Div(first, second),
        ArithOp::Mod => Term::Mod(first, second),
    }
}

// The length of what a symbol names.
fn length_for(alloc: Global, symbol: Symbol) -> Result<Term, AllocError>
    ensures { IfOk result (λ t. sum_of t ≡ len (var symbol)) }
{
    Ok(Term::Length(Box::new(alloc, Term::Var(symbol))?))
}

// The measure of this number.
fn measure_for(
    alloc: Global,
    measures: &[ScopedMeasure],
    at: usize,
    symbol: Symbol,
) -> Result<Term, AllocError>
    ensures { IfOk result (λ t. sum_of t
        ≡ measure_by (slice_get (map measure_name measures.now) at) symbol) }
{
    match measures.get(at) {
        Some(measure) => Ok(Term::Measure(measure.name, Box::new(alloc, Term::Var(symbol))?)),
        None => Ok(Term::Whole(0)),
    }
}

// A term with these symbols.
#[cycle(term)]
fn term_for(
    alloc: Global,
    measures: &[ScopedMeasure],
    symbols: &[Symbol],
    term: &ScopedTerm,
) -> Result<Term, AllocError>
    ensures { IfOk result (λ t. sum_of t
        ≡ term_by (map measure_name measures.now) symbols.now (term_view term.now)) }
{
    match term {
        ScopedTerm::Whole(number) => Ok(Term::Whole(*number)),
        ScopedTerm::Var(variable) => Ok(Term::Var(symbol_for(symbols, *variable))),
        ScopedTerm::Length(variable) => length_for(alloc, symbol_for(symbols, *variable)),
        ScopedTerm::Measure(at, variable) => {
            measure_for(alloc, measures, *at, symbol_for(symbols, *variable))
        }
        ScopedTerm::Arith(op, first, second) => Ok(operated(
            *op,
            boxed_term(alloc, measures, symbols, first)?,
            boxed_term(alloc, measures, symbols, second)?,
        )),
        ScopedTerm::Neg(part) => Ok(Term::Neg(boxed_term(alloc, measures, symbols, part)?)),
    }
}

#[cycle(term)]
fn boxed_term(
    alloc: Global,
    measures: &[ScopedMeasure],
    symbols: &[Symbol],
    term: &ScopedTerm,
) -> Result<Box<Term>, AllocError>
    ensures { IfOk result (λ b. sum_of b.value
        ≡ term_by (map measure_name measures.now) symbols.now (term_view term.now)) }
{
    let made = term_for(alloc, measures, symbols, term)?;
    Ok(Box::new(alloc, made)?)
}

/// A qualifier's predicate with these symbols.
#[cycle(predicate)]
pub(crate) fn instance_for(
    alloc: Global,
    measures: &[ScopedMeasure],
    symbols: &[Symbol],
    predicate: &ScopedPred,
) -> Result<Pred, AllocError>
    ensures { IfOk result (λ p. formula_of p
        ≡ instance_by (map measure_name measures.now) symbols.now (predicate_view predicate.now)) }
{
    match predicate {
        ScopedPred::Flag(true) => Ok(Pred::True),
        ScopedPred::Flag(false) => Ok(Pred::False),
        ScopedPred::Holds(variable) => Ok(Pred::Flag(symbol_for(symbols, *variable))),
        ScopedPred::Compare(op, first, second) => Ok(Pred::Compare(
            *op,
            term_for(alloc, measures, symbols, first)?,
            term_for(alloc, measures, symbols, second)?,
        )),
        ScopedPred::Not(part) => Ok(Pred::Not(boxed(alloc, measures, symbols, part)?)),
        ScopedPred::And(first, second) => Ok(Pred::And(
            boxed(alloc, measures, symbols, first)?,
            boxed(alloc, measures, symbols, second)?,
        )),
        ScopedPred::Or(first, second) => Ok(Pred::Or(
            boxed(alloc, measures, symbols, first)?,
            boxed(alloc, measures, symbols, second)?,
        )),
        ScopedPred::Iff(first, second) => Ok(Pred::Iff(
            boxed(alloc, measures, symbols, first)?,
            boxed(alloc, measures, symbols, second)?,
        )),
    }
}

#[cycle(predicate)]
fn boxed(
    alloc: Global,
    measures: &[ScopedMeasure],
    symbols: &[Symbol],
    predicate: &ScopedPred,
) -> Result<Box<Pred>, AllocError>
    ensures { IfOk result (λ b. formula_of b.value
        ≡ instance_by (map measure_name measures.now) symbols.now (predicate_view predicate.now)) }
{
    let made = instance_for(alloc, measures, symbols, predicate)?;
    Ok(Box::new(alloc, made)?)
}
