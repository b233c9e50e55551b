// Terms and predicates as text, each operator behind its arguments, and fractions.
use lq_base_numbers::fractions::{Frac, NumOp, NumberPast};
use lq_logic_predicates::{CompareOp, Pred, Symbol, Term};
use std::alloc::AllocError;
use std::fmt::Write;

type Pushed = Result<(), AllocError>;

pub fn push_symbol(out: &mut String, symbol: Symbol) -> Pushed {
    match symbol {
        Symbol::Value => out.push_str("value"),
        Symbol::Bound(binder) => {
            let number = binder.0;
            write!(out, "v{number}")
        }
        Symbol::Position(at) => write!(out, "#{at}"),
    }
}

// The operator of a term.
fn push_operator(out: &mut String, term: &Term) -> Pushed {
    match term {
        Term::Whole(_) | Term::Var(_) => Ok(()),
        Term::Neg(_) => out.push_str(" neg"),
        Term::Add(_, _) => out.push_str(" +"),
        Term::Sub(_, _) => out.push_str(" -"),
        Term::Mul(_, _) => out.push_str(" *"),
        Term::Div(_, _) => out.push_str(" /"),
        Term::Mod(_, _) => out.push_str(" %"),
        Term::Length(_) => out.push_str(" length"),
        Term::Measure(name, _) => {
            let number = name.0;
            write!(out, " m{number}")
        }
    }
}

pub fn push_term(out: &mut String, term: &Term) -> Pushed {
    match term {
        Term::Whole(number) => write!(out, "{number}")?,
        Term::Var(symbol) => push_symbol(out, *symbol)?,
        Term::Neg(a) | Term::Length(a) | Term::Measure(_, a) => push_term(out, a)?,
        Term::Add(a, b) | Term::Sub(a, b) | Term::Mul(a, b) | Term::Div(a, b) | Term::Mod(a, b) => {
            push_term(out, a)?;
            out.push_str(" ")?;
            push_term(out, b)?;
        }
    }
    push_operator(out, term)
}

/// A comparison; of any other predicate that it is none.
pub fn push_pred(out: &mut String, pred: &Pred) -> Pushed {
    let Pred::Compare(op, left, right) = pred else {
        return out.push_str("no comparison");
    };
    push_term(out, left)?;
    out.push_str(" ")?;
    push_term(out, right)?;
    match op {
        CompareOp::Eq => out.push_str(" ="),
        CompareOp::Ne => out.push_str(" <>"),
        CompareOp::Lt => out.push_str(" <"),
        CompareOp::Le => out.push_str(" <="),
        CompareOp::Gt => out.push_str(" >"),
        CompareOp::Ge => out.push_str(" >="),
    }
}

/// A fraction: its numerator, and its denominator where that isn't 1.
pub fn push_fraction(out: &mut String, value: &Frac) -> Pushed {
    let numer = value.numer();
    let denom = value.denom();
    write!(out, "{numer}")?;
    if denom != 1 {
        write!(out, "/{denom}")?;
    }
    Ok(())
}

/// An operation past 128 bits, with its operands.
pub fn push_past(out: &mut String, past: &NumberPast) -> Pushed {
    let name = match past.op {
        NumOp::Add => "+",
        NumOp::Sub => "-",
        NumOp::Mul => "*",
        NumOp::Div => "/",
        NumOp::Neg => "neg",
    };
    out.push_str("number ")?;
    push_fraction(out, &past.left)?;
    out.push_str(" ")?;
    push_fraction(out, &past.right)?;
    write!(out, " {name}")
}
