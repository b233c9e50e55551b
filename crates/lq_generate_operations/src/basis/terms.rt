// What pure expressions are in predicates.
ghost use Rattle.std.specs.Prelude.{◌≡◌, IfOk};
ghost use Rattle.lq_refined_rules.specs.Checks.Pure as pure;
ghost use Rattle.lq_refined_templates.specs.Programs.PureView.{pure_view};
ghost use Rattle.lq_logic_predicates.specs.PredView.{formula_of as formula_view};
ghost use Rattle.lq_logic_predicates.specs.TermView.{sum_of as sum_view};

use lq_logic_predicates::{Pred, Symbol, Term};
use lq_refined_templates::programs::{Pure, RingOp};
use std::alloc::{AllocError, Global};

/// What an expression is as a number or an object.
#[cycle(term)]
pub fn term(alloc: Global, e: &Pure) -> Result<Term, AllocError>
    ensures { IfOk result (λ made. sum_view made ≡ pure.sum_of (pure_view e.now)) }
{
    match e {
        Pure::Whole(n) => Ok(Term::Whole(*n)),
        Pure::Use(used) => Ok(Term::Var(Symbol::Bound(used.name))),
        Pure::Neg(a) => Ok(Term::Neg(boxed_term(alloc, a)?)),
        Pure::Ring(RingOp::Add, a, b) => {
            Ok(Term::Add(boxed_term(alloc, a)?, boxed_term(alloc, b)?))
        }
        Pure::Ring(RingOp::Sub, a, b) => {
            Ok(Term::Sub(boxed_term(alloc, a)?, boxed_term(alloc, b)?))
        }
        Pure::Ring(RingOp::Mul, a, b) => {
            Ok(Term::Mul(boxed_term(alloc, a)?, boxed_term(alloc, b)?))
        }
        Pure::Length(a) => Ok(Term::Length(boxed_term(alloc, a)?)),
        Pure::Flag(_)
        | Pure::Unit
        | Pure::Compare(_, _, _)
        | Pure::Not(_)
        | Pure::And(_, _)
        | Pure::Or(_, _) => Ok(Term::Whole(0)),
    }
}

#[cycle(term)]
fn boxed_term(alloc: Global, e: &Pure) -> Result<Box<Term>, AllocError>
    ensures { IfOk result (λ made. sum_view made.value ≡ pure.sum_of (pure_view e.now)) }
{
    let made = term(alloc, e)?;
    Ok(Box::new(alloc, made)?)
}

/// What an expression is as a truth value.
#[cycle(formula)]
pub fn formula(alloc: Global, e: &Pure) -> Result<Pred, AllocError>
    ensures { IfOk result (λ made. formula_view made ≡ pure.formula_of (pure_view e.now)) }
{
    match e {
        Pure::Flag(true) => Ok(Pred::True),
        Pure::Flag(false) => Ok(Pred::False),
        Pure::Use(used) => Ok(Pred::Flag(Symbol::Bound(used.name))),
        Pure::Compare(op, a, b) => Ok(Pred::Compare(*op, term(alloc, a)?, term(alloc, b)?)),
        Pure::Not(p) => Ok(Pred::Not(boxed_formula(alloc, p)?)),
        Pure::And(p, q) => Ok(Pred::And(boxed_formula(alloc, p)?, boxed_formula(alloc, q)?)),
        Pure::Or(p, q) => Ok(Pred::Or(boxed_formula(alloc, p)?, boxed_formula(alloc, q)?)),
        Pure::Whole(_) | Pure::Unit | Pure::Neg(_) | Pure::Ring(_, _, _) | Pure::Length(_) => {
            Ok(Pred::True)
        }
    }
}

#[cycle(formula)]
fn boxed_formula(alloc: Global, e: &Pure) -> Result<Box<Pred>, AllocError>
    ensures { IfOk result (λ made. formula_view made.value ≡ pure.formula_of (pure_view e.now)) }
{
    let made = formula(alloc, e)?;
    Ok(Box::new(alloc, made)?)
}
