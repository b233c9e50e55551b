// Which predicates have no quotients, no remainders and no products of two unknown factors.
ghost use Rattle.std.specs.Prelude.{IsTrue};
ghost use Rattle.lq_logic_predicates.specs.PredView.{formula_of};
ghost use Rattle.lq_logic_predicates.specs.Table.{literal_of};
ghost use Rattle.lq_logic_predicates.specs.TermView.{sum_of};
ghost use Rattle.lq_solve_facts.specs.Facts.Plain.{HasLiteral, IsPlain, IsPlainSum};

use lq_logic_predicates::{Pred, Term};

/// Whether one of two factors is a literal.
fn has_literal(left: &Term, right: &Term) -> bool
    ensures { IsTrue result → HasLiteral (literal_of (sum_of left.now)) (literal_of (sum_of right.now)) }
{
    match (left, right) {
        (Term::Whole(_), _) | (_, Term::Whole(_)) => true,
        (_, _) => false,
    }
}

/// Whether no quotient, no remainder and no product but with a literal factor stands in a term.
fn is_plain_term(term: &Term) -> bool
    ensures { IsTrue result → IsPlainSum (sum_of term.now) }
{
    match term {
        Term::Whole(_) | Term::Var(_) => true,
        Term::Neg(a) => is_plain_term(a),
        Term::Add(a, b) => is_plain_term(a) && is_plain_term(b),
        Term::Sub(a, b) => is_plain_term(a) && is_plain_term(b),
        Term::Mul(a, b) => has_literal(a, b) && is_plain_term(a) && is_plain_term(b),
        Term::Div(_, _) | Term::Mod(_, _) => false,
        Term::Length(a) => is_plain_term(a),
        Term::Measure(_, a) => is_plain_term(a),
    }
}

/// Whether two terms are plain so.
fn are_plain_terms(left: &Term, right: &Term) -> bool
    ensures { IsTrue result → IsPlainSum (sum_of left.now) × IsPlainSum (sum_of right.now) }
{
    is_plain_term(left) && is_plain_term(right)
}

/// Whether no quotient, no remainder and no product but with a literal factor stands in a predicate.
pub(crate) fn is_plain(pred: &Pred) -> bool
    ensures { IsTrue result → IsPlain (formula_of pred.now) }
{
    match pred {
        Pred::True | Pred::False | Pred::Flag(_) => true,
        Pred::Compare(_, a, b) => are_plain_terms(a, b),
        Pred::Same(a, b) => are_plain_terms(a, b),
        Pred::Not(p) => is_plain(p),
        Pred::And(p, q) => is_plain(p) && is_plain(q),
        Pred::Or(p, q) => is_plain(p) && is_plain(q),
        Pred::Iff(p, q) => is_plain(p) && is_plain(q),
    }
}
