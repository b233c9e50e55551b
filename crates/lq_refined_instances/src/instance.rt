// Instances, their equality and their hashes.
ghost use Rattle.std.specs.Prelude.{◌≡◌, fold};
ghost use Rattle.lq_logic_predicates.specs.PredView.{formula_of};
ghost use Rattle.lq_refined_instances.specs.Same.{comparison_number, same_formula};
ghost use Rattle.lq_refined_instances.specs.Hashed.{writes_of};

use lq_logic_predicates::{CompareOp, Pred, Symbol, Term};
use std::hash::{Hash, Hasher};

/// A predicate that can be the key of a table.
#[derive(Debug, Drop)]
pub(crate) struct Instance {
    pub(crate) predicate: Pred,
}

impl PartialEq for Instance {
    ghost use Rattle.lq_refined_instances.specs.Same.{same_partial_laws};

    ghost eq = { λ a b. same_formula (formula_of a.predicate) (formula_of b.predicate) };

    ghost laws = { same_partial_laws };

    fn eq(&self, other: &Instance) -> bool {
        is_same(&self.predicate, &other.predicate)
    }
}

impl Eq for Instance {
    ghost use Rattle.lq_refined_instances.specs.Same.{same_laws};

    ghost laws = { same_laws };
}

impl Hash for Instance {
    ghost use Rattle.lq_refined_instances.specs.Hashed.{writes-same};

    ghost hash_input = { λ i. writes_of (formula_of i.predicate) };

    ghost respects_eq = { λ a b h. writes-same (formula_of a.predicate) (formula_of b.predicate) h };

    fn hash<H: Hasher>(&self, state: &mut H) {
        feed(&self.predicate, state);
    }
}

fn number_of(op: CompareOp) -> u8
    ensures { result ≡ comparison_number op }
{
    match op {
        CompareOp::Eq => 0,
        CompareOp::Ne => 1,
        CompareOp::Lt => 2,
        CompareOp::Le => 3,
        CompareOp::Gt => 4,
        CompareOp::Ge => 5,
    }
}

// Whether the two are one predicate.
fn is_same(first: &Pred, second: &Pred) -> bool
    ensures { result ≡ same_formula (formula_of first.now) (formula_of second.now) }
{
    match (first, second) {
        (Pred::True, Pred::True) | (Pred::False, Pred::False) => true,
        (Pred::Flag(x), Pred::Flag(y)) => Term::Var(*x) == Term::Var(*y),
        (Pred::Compare(o, a, b), Pred::Compare(p, c, d)) => {
            number_of(*o) == number_of(*p) && a == c && b == d
        }
        (Pred::Same(a, b), Pred::Same(c, d)) => a == c && b == d,
        (Pred::Not(p), Pred::Not(q)) => is_same(p, q),
        (Pred::And(p, q), Pred::And(r, s)) => is_same(p, r) && is_same(q, s),
        (Pred::Or(p, q), Pred::Or(r, s)) => is_same(p, r) && is_same(q, s),
        (Pred::Iff(p, q), Pred::Iff(r, s)) => is_same(p, r) && is_same(q, s),
        _ => false,
    }
}

// Feeds a predicate to a hasher, each form under a number of its own.
fn feed<H: Hasher>(predicate: &Pred, state: &mut H)
    ensures { state.new ≡ fold H.write state.old (writes_of (formula_of predicate.now)) }
{
    match predicate {
        Pred::True => state.write_u8(0),
        Pred::False => state.write_u8(1),
        Pred::Flag(x) => {
            state.write_u8(2);
            Term::Var(*x).hash(state);
        }
        Pred::Compare(op, a, b) => {
            state.write_u8(3);
            state.write_u8(number_of(*op));
            a.hash(state);
            b.hash(state);
        }
        Pred::Same(a, b) => {
            state.write_u8(4);
            a.hash(state);
            b.hash(state);
        }
        Pred::Not(p) => {
            state.write_u8(5);
            feed(p, state);
        }
        Pred::And(p, q) => {
            state.write_u8(6);
            feed(p, state);
            feed(q, state);
        }
        Pred::Or(p, q) => {
            state.write_u8(7);
            feed(p, state);
            feed(q, state);
        }
        Pred::Iff(p, q) => {
            state.write_u8(8);
            feed(p, state);
            feed(q, state);
        }
    }
}
