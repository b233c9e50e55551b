// Whether predicates are narrow.
ghost use Rattle.std.specs.Prelude.{◌≡◌, ◌+◌, ◌*◌, IfSome, IsTrue, unsigned_abs};
ghost use Rattle.lq_logic_predicates.specs.PredView.{formula_of};
ghost use Rattle.lq_logic_predicates.specs.Table.{literal_of};
ghost use Rattle.lq_logic_predicates.specs.TermView.{sum_of};
ghost use Rattle.lq_solve_strongest.specs.SmallForms.Narrow.{HasSmallArguments, IsNarrow, IsSmall, product_size, sum_size};

use lq_logic_predicates::{Pred, Term};

/// The number that a literal is.
fn literal(term: &Term) -> Option<i128>
    ensures { result ≡ literal_of (sum_of term.now) }
{
    match term {
        Term::Whole(n) => Some(*n),
        Term::Var(_)
        | Term::Neg(_)
        | Term::Add(_, _)
        | Term::Sub(_, _)
        | Term::Mul(_, _)
        | Term::Div(_, _)
        | Term::Mod(_, _)
        | Term::Length(_)
        | Term::Measure(_, _) => None,
    }
}

/// The size of a product of factors of these sizes, of which the first is multiplied by a literal.
fn scaled(factor: i128, size: u128, left: u128, right: u128) -> Option<u128>
    ensures { IfSome result (λ n. n ≡ left + right + unsigned_abs factor * size) }
{
    let product = factor.unsigned_abs().checked_mul(size)?;
    left.checked_add(right)?.checked_add(product)
}

/// The size of a product, by those of its factors.
fn product(left: Option<i128>, right: Option<i128>, first: u128, second: u128) -> Option<u128>
    ensures { IfSome result (λ n. n ≡ product_size left right first second) }
{
    match (left, right) {
        (Some(factor), _) => scaled(factor, second, first, second),
        (None, Some(factor)) => scaled(factor, first, first, second),
        (None, None) => Some(1),
    }
}

/// The size of a sum; None of one past 128 bits.
fn size(term: &Term) -> Option<u128>
    ensures { IfSome result (λ n. n ≡ sum_size (sum_of term.now)) }
{
    match term {
        Term::Whole(n) => Some(n.unsigned_abs()),
        Term::Neg(a) => size(a),
        Term::Add(a, b) | Term::Sub(a, b) => size(a)?.checked_add(size(b)?),
        Term::Mul(a, b) => product(literal(a), literal(b), size(a)?, size(b)?),
        Term::Var(_) | Term::Div(_, _) | Term::Mod(_, _) | Term::Length(_) | Term::Measure(_, _) =>
            Some(1),
    }
}

/// Whether the form of a sum is small.
fn is_small(term: &Term) -> bool
    ensures { IsTrue result → IsSmall (sum_of term.now) }
{
    match size(term) {
        Some(n) => n <= 1 << 120,
        None => false,
    }
}

/// Whether the arguments of the products, quotients and remainders in a sum are small.
fn has_small_arguments(term: &Term) -> bool
    ensures { IsTrue result → HasSmallArguments (sum_of term.now) }
{
    match term {
        Term::Neg(a) => has_small_arguments(a),
        Term::Add(a, b) | Term::Sub(a, b) => has_small_arguments(a) && has_small_arguments(b),
        Term::Mul(a, b) | Term::Div(a, b) | Term::Mod(a, b) => {
            has_small_arguments(a) && has_small_arguments(b) && is_small(a) && is_small(b)
        }
        Term::Whole(_) | Term::Var(_) | Term::Length(_) | Term::Measure(_, _) => true,
    }
}

/// Whether a predicate is known to be narrow.
pub fn is_narrow(pred: &Pred) -> bool
    ensures { IsTrue result → IsNarrow (formula_of pred.now) }
{
    match pred {
        Pred::True | Pred::False | Pred::Flag(_) | Pred::Same(_, _) => true,
        Pred::Compare(_, a, b) => {
            has_small_arguments(a) && has_small_arguments(b) && is_small(a) && is_small(b)
        }
        Pred::Not(p) => is_narrow(p),
        Pred::And(p, q) | Pred::Or(p, q) | Pred::Iff(p, q) => is_narrow(p) && is_narrow(q),
    }
}
