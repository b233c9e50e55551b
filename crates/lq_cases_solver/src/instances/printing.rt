// Predicates as text, each operation in parentheses.

use crate::instances::scopes::Bound;
use crate::instances::texts::text_of;
use lq_base_names::NameTable;
use lq_logic_predicates::{CompareOp, Pred, Symbol, Term};
use std::alloc::{AllocError, Global};

/// The names that predicates speak of.
#[derive(Drop)]
pub(crate) struct Names<'a> {
    pub(crate) table: &'a NameTable,
    pub(crate) bound: &'a [Bound],
}

fn symbol_text(alloc: Global, names: &Names, symbol: Symbol) -> Result<String, AllocError> {
    match symbol {
        Symbol::Value => String::from_str(alloc, "v"),
        Symbol::Position(number) => format!(in alloc; "#{number}"),
        Symbol::Bound(binder) => match names.bound.get(binder.0 as usize) {
            Some(name) if name.before == 0 => String::from_str(alloc, name.text.as_str()),
            Some(name) => {
                let text = name.text.as_str();
                let number = name.before.saturating_add(1);
                format!(in alloc; "{text}@{number}")
            }
            None => String::from_str(alloc, "?"),
        },
    }
}

fn compare_text(op: CompareOp) -> &'static str {
    match op {
        CompareOp::Eq => "=",
        CompareOp::Ne => "<>",
        CompareOp::Lt => "<",
        CompareOp::Le => "<=",
        CompareOp::Gt => ">",
        CompareOp::Ge => ">=",
    }
}

// Two texts with an operator between them.
fn pair_text(
    alloc: Global,
    first: &str,
    between: &str,
    second: &str,
) -> Result<String, AllocError> {
    format!(in alloc; "({first} {between} {second})")
}

// The operator of a term of two parts.
fn term_operator(term: &Term) -> &'static str {
    match term {
        Term::Add(_, _) => "+",
        Term::Sub(_, _) => "-",
        Term::Mul(_, _) => "*",
        Term::Div(_, _) => "/",
        Term::Mod(_, _) => "mod",
        _ => "",
    }
}

fn term_text(alloc: Global, names: &Names, term: &Term) -> Result<String, AllocError> {
    match term {
        Term::Whole(n) => format!(in alloc; "{n}"),
        Term::Var(symbol) => symbol_text(alloc, names, *symbol),
        Term::Neg(part) => {
            let part = term_text(alloc, names, part)?;
            format!(in alloc; "-({part})")
        }
        Term::Add(first, second)
        | Term::Sub(first, second)
        | Term::Mul(first, second)
        | Term::Div(first, second)
        | Term::Mod(first, second) => {
            let first = term_text(alloc, names, first)?;
            let second = term_text(alloc, names, second)?;
            pair_text(alloc, first.as_str(), term_operator(term), second.as_str())
        }
        Term::Length(of) => {
            let of = term_text(alloc, names, of)?;
            format!(in alloc; "length({of})")
        }
        Term::Measure(name, of) => {
            let measure = text_of(names.table, *name);
            let of = term_text(alloc, names, of)?;
            format!(in alloc; "{measure}({of})")
        }
    }
}

// Two terms with an operator between them.
fn terms_text(
    alloc: Global,
    names: &Names,
    first: &Term,
    between: &str,
    second: &Term,
) -> Result<String, AllocError> {
    let first = term_text(alloc, names, first)?;
    let second = term_text(alloc, names, second)?;
    pair_text(alloc, first.as_str(), between, second.as_str())
}

// The operator of a predicate of two parts.
fn pred_operator(pred: &Pred) -> &'static str {
    match pred {
        Pred::And(_, _) => "&&",
        Pred::Or(_, _) => "||",
        Pred::Iff(_, _) => "<=>",
        _ => "",
    }
}

/// The text of a predicate.
pub(crate) fn pred_text(alloc: Global, names: &Names, pred: &Pred) -> Result<String, AllocError> {
    match pred {
        Pred::True => String::from_str(alloc, "true"),
        Pred::False => String::from_str(alloc, "false"),
        Pred::Flag(symbol) => symbol_text(alloc, names, *symbol),
        Pred::Compare(op, first, second) => {
            terms_text(alloc, names, first, compare_text(*op), second)
        }
        Pred::Same(first, second) => terms_text(alloc, names, first, "is", second),
        Pred::Not(part) => {
            let part = pred_text(alloc, names, part)?;
            format!(in alloc; "not({part})")
        }
        Pred::And(first, second) | Pred::Or(first, second) | Pred::Iff(first, second) => {
            let first = pred_text(alloc, names, first)?;
            let second = pred_text(alloc, names, second)?;
            pair_text(alloc, first.as_str(), pred_operator(pred), second.as_str())
        }
    }
}
