// Answers as text: fractions, rows, terms and readings.
use lq_base_numbers::fractions::{Frac, NumOp, NumberPast};
use lq_logic_predicates::{Nnf, Nnfs, Symbol, Term};
use lq_logic_rows::LinearRow;
use std::alloc::AllocError;
use std::fmt::Write;

type Pushed = Result<(), AllocError>;

/// A fraction: its numerator, and its denominator where that isn't 1.
pub(crate) fn push_fraction(out: &mut String, value: &Frac) -> Pushed {
    let numer = value.numer();
    let denom = value.denom();
    write!(out, "{numer}")?;
    if denom != 1 {
        write!(out, "/{denom}")?;
    }
    Ok(())
}

/// An operation past 128 bits, with its operands.
pub(crate) fn push_past(out: &mut String, past: &NumberPast) -> Pushed {
    let name = match past.op {
        NumOp::Add => "add",
        NumOp::Sub => "sub",
        NumOp::Mul => "mul",
        NumOp::Div => "div",
        NumOp::Neg => "neg",
    };
    write!(out, "past {name} ")?;
    push_fraction(out, &past.left)?;
    out.push_str(" ")?;
    push_fraction(out, &past.right)
}

/// A row: its coefficients by the numbers of its terms, its constant, and how they stand to 0.
pub(crate) fn push_row(out: &mut String, row: &LinearRow) -> Pushed {
    for (term, coefficient) in row.parts() {
        write!(out, "{coefficient} t{term} + ")?;
    }
    let constant = row.constant();
    write!(out, "{constant}")?;
    out.push_str(if row.equal() { " = 0" } else { " <= 0" })
}

fn push_symbol(out: &mut String, symbol: Symbol) -> Pushed {
    match symbol {
        Symbol::Value => out.push_str("value"),
        Symbol::Bound(binder) => {
            let number = binder.0;
            write!(out, "v{number}")
        }
        Symbol::Position(at) => write!(out, "#{at}"),
    }
}

/// The word before the parts of a term, where it has any.
fn push_head(out: &mut String, term: &Term) -> Pushed {
    match term {
        Term::Whole(_) | Term::Var(_) => Ok(()),
        Term::Neg(_) => out.push_str("neg"),
        Term::Add(_, _) => out.push_str("+"),
        Term::Sub(_, _) => out.push_str("-"),
        Term::Mul(_, _) => out.push_str("*"),
        Term::Div(_, _) => out.push_str("/"),
        Term::Mod(_, _) => out.push_str("%"),
        Term::Length(_) => out.push_str("length"),
        Term::Measure(name, _) => {
            let number = name.0;
            write!(out, "m{number}")
        }
    }
}

/// A term, as a case writes it.
pub(crate) fn push_term(out: &mut String, term: &Term) -> Pushed {
    match term {
        Term::Whole(number) => write!(out, "{number}"),
        Term::Var(symbol) => push_symbol(out, *symbol),
        Term::Neg(a) | Term::Length(a) | Term::Measure(_, a) => {
            out.push_str("(")?;
            push_head(out, term)?;
            out.push_str(" ")?;
            push_term(out, a)?;
            out.push_str(")")
        }
        Term::Add(a, b) | Term::Sub(a, b) | Term::Mul(a, b) | Term::Div(a, b) | Term::Mod(a, b) => {
            out.push_str("(")?;
            push_head(out, term)?;
            out.push_str(" ")?;
            push_term(out, a)?;
            out.push_str(" ")?;
            push_term(out, b)?;
            out.push_str(")")
        }
    }
}

/// A sign before a literal.
fn push_sign(out: &mut String, sign: bool) -> Pushed {
    if sign { Ok(()) } else { out.push_str("not ") }
}

/// A tightened reading.
#[cycle(readings)]
pub(crate) fn push_reading(out: &mut String, nnf: &Nnf) -> Pushed {
    match nnf {
        Nnf::Yes => out.push_str("yes"),
        Nnf::No => out.push_str("no"),
        Nnf::Row(row) => push_row(out, row),
        Nnf::Flag(symbol, sign) => {
            push_sign(out, *sign)?;
            out.push_str("flag ")?;
            push_symbol(out, *symbol)
        }
        Nnf::Same(a, b, sign) => {
            push_sign(out, *sign)?;
            out.push_str("same ")?;
            push_term(out, a)?;
            out.push_str(" ")?;
            push_term(out, b)
        }
        Nnf::All(inner) => push_readings(out, "all", inner),
        Nnf::Any(inner) => push_readings(out, "any", inner),
    }
}

#[cycle(readings)]
fn push_readings(out: &mut String, name: &str, inner: &Nnfs) -> Pushed {
    write!(out, "{name}(")?;
    for (at, nnf) in inner.as_slice().iter().enumerate() {
        if at > 0 {
            out.push_str("; ")?;
        }
        push_reading(out, nnf)?;
    }
    out.push_str(")")
}
