// Products, quotients and remainders.
ghost use Rattle.std.specs.Prelude.{◌≡◌, ◌↔◌, IfSome, IsTrue, is_some};
ghost use Rattle.lq_logic_predicates.specs.Sum.{mul};
ghost use Rattle.lq_logic_predicates.specs.Table.{literal_of};
ghost use Rattle.lq_logic_predicates.specs.TermView.{sum_of};
ghost use Rattle.lq_prover_search.specs.Search.Operations.{operation_of, operation_view};

use lq_logic_predicates::Term;

/// An operation on two whole numbers whose result is a term of its own.
#[derive(Clone, Copy, PartialEq, Eq)]
pub(crate) enum Operator {
    Times,
    Over,
    Remainder,
}

/// Whether two operators are the same.
pub(crate) fn is_same(left: Operator, right: Operator) -> bool
    ensures { IsTrue result ↔ (left ≡ right) }
{
    left == right
}

/// An operation with its result and its arguments.
#[derive(Clone, Copy)]
pub(crate) struct Operation<'a> {
    pub(crate) operator: Operator,
    pub(crate) term: &'a Term,
    pub(crate) left: &'a Term,
    pub(crate) right: &'a Term,
}

/// Whether a term is a literal.
fn is_literal(term: &Term) -> bool
    ensures { result ≡ is_some (literal_of (sum_of term.now)) }
{
    match term {
        Term::Whole(_) => true,
        Term::Var(_)
        | Term::Neg(_)
        | Term::Add(_, _)
        | Term::Sub(_, _)
        | Term::Mul(_, _)
        | Term::Div(_, _)
        | Term::Mod(_, _)
        | Term::Length(_)
        | Term::Measure(_, _) => false,
    }
}

/// The product of two terms, where neither is a literal.
fn product<'a>(term: &'a Term, left: &'a Term, right: &'a Term) -> Option<Operation<'a>>
    ensures view { operation_view result ≡ operation_of (mul (sum_of left.now) (sum_of right.now)) }
    ensures term { IfSome result (λ o. sum_of o.term.now ≡ sum_of term.now) }
{
    if is_literal(left) || is_literal(right) {
        return None;
    }
    Some(Operation {
        operator: Operator::Times,
        term,
        left,
        right,
    })
}

/// The operation that a term is. A product with a literal is none.
pub(crate) fn applied(term: &Term) -> Option<Operation<'_>>
    ensures view { operation_view result ≡ operation_of (sum_of term.now) }
    ensures term { IfSome result (λ o. sum_of o.term.now ≡ sum_of term.now) }
{
    match term {
        Term::Mul(left, right) => product(term, left, right),
        Term::Div(left, right) => Some(Operation {
            operator: Operator::Over,
            term,
            left,
            right,
        }),
        Term::Mod(left, right) => Some(Operation {
            operator: Operator::Remainder,
            term,
            left,
            right,
        }),
        Term::Whole(_)
        | Term::Var(_)
        | Term::Neg(_)
        | Term::Add(_, _)
        | Term::Sub(_, _)
        | Term::Length(_)
        | Term::Measure(_, _) => None,
    }
}
