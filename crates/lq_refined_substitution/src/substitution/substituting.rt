// Predicates and terms with something put for their symbols.
ghost use Rattle.std.specs.Prelude.{◌≡◌, IfOk};
ghost use Rattle.lq_refined_types.specs.Parts.Substitution.{atom_by, formula_by, sum_by};
ghost use Rattle.lq_logic_predicates.specs.PredView.{formula_of};
ghost use Rattle.lq_logic_predicates.specs.TermView.{sum_of};
ghost use Rattle.lq_refined_substitution.specs.Substitution.Views.{atom_view, subst_view};

use crate::substitution::atoms::Atom;
use crate::substitution::substs::Subst;
use lq_logic_predicates::{Pred, Term};
use std::alloc::{AllocError, Global};

/// The term with all symbols replaced at once.
#[cycle(term)]
pub fn substitute_term(alloc: Global, term: &Term, by: &Subst) -> Result<Term, AllocError>
    ensures { IfOk result (λ made. sum_of made ≡ sum_by (subst_view by.now) (sum_of term.now)) }
{
    match term {
        Term::Whole(n) => Ok(Term::Whole(*n)),
        Term::Var(x) => by.term_for(alloc, *x),
        Term::Neg(a) => Ok(Term::Neg(boxed_term(alloc, a, by)?)),
        Term::Add(a, b) => Ok(Term::Add(boxed_term(alloc, a, by)?, boxed_term(alloc, b, by)?)),
        Term::Sub(a, b) => Ok(Term::Sub(boxed_term(alloc, a, by)?, boxed_term(alloc, b, by)?)),
        Term::Mul(a, b) => Ok(Term::Mul(boxed_term(alloc, a, by)?, boxed_term(alloc, b, by)?)),
        Term::Div(a, b) => Ok(Term::Div(boxed_term(alloc, a, by)?, boxed_term(alloc, b, by)?)),
        Term::Mod(a, b) => Ok(Term::Mod(boxed_term(alloc, a, by)?, boxed_term(alloc, b, by)?)),
        Term::Length(a) => Ok(Term::Length(boxed_term(alloc, a, by)?)),
        Term::Measure(name, a) => Ok(Term::Measure(*name, boxed_term(alloc, a, by)?)),
    }
}

#[cycle(term)]
fn boxed_term(alloc: Global, term: &Term, by: &Subst) -> Result<Box<Term>, AllocError>
    ensures { IfOk result (λ made. sum_of made.value ≡ sum_by (subst_view by.now) (sum_of term.now)) }
{
    let made = substitute_term(alloc, term, by)?;
    Ok(Box::new(alloc, made)?)
}

/// The predicate with all symbols replaced at once.
#[cycle(pred)]
pub fn substitute(alloc: Global, pred: &Pred, by: &Subst) -> Result<Pred, AllocError>
    ensures { IfOk result (λ made. formula_of made ≡ formula_by (subst_view by.now) (formula_of pred.now)) }
{
    match pred {
        Pred::True => Ok(Pred::True),
        Pred::False => Ok(Pred::False),
        Pred::Flag(x) => by.pred_for(alloc, *x),
        Pred::Compare(op, a, b) => Ok(Pred::Compare(
            *op,
            substitute_term(alloc, a, by)?,
            substitute_term(alloc, b, by)?,
        )),
        Pred::Same(a, b) => Ok(Pred::Same(
            substitute_term(alloc, a, by)?,
            substitute_term(alloc, b, by)?,
        )),
        Pred::Not(p) => Ok(Pred::Not(boxed_pred(alloc, p, by)?)),
        Pred::And(p, q) => Ok(Pred::And(boxed_pred(alloc, p, by)?, boxed_pred(alloc, q, by)?)),
        Pred::Or(p, q) => Ok(Pred::Or(boxed_pred(alloc, p, by)?, boxed_pred(alloc, q, by)?)),
        Pred::Iff(p, q) => Ok(Pred::Iff(boxed_pred(alloc, p, by)?, boxed_pred(alloc, q, by)?)),
    }
}

#[cycle(pred)]
fn boxed_pred(alloc: Global, pred: &Pred, by: &Subst) -> Result<Box<Pred>, AllocError>
    ensures { IfOk result (λ made. formula_of made.value ≡ formula_by (subst_view by.now) (formula_of pred.now)) }
{
    let made = substitute(alloc, pred, by)?;
    Ok(Box::new(alloc, made)?)
}

/// The atom with all symbols replaced at once.
pub fn substitute_atom(alloc: Global, atom: &Atom, by: &Subst) -> Result<Atom, AllocError>
    ensures { IfOk result (λ made. atom_view made ≡ atom_by (subst_view by.now) (atom_view atom.now)) }
{
    match atom {
        Atom::Term(term) => Ok(Atom::Term(substitute_term(alloc, term, by)?)),
        Atom::Pred(pred) => Ok(Atom::Pred(substitute(alloc, pred, by)?)),
    }
}
