// What of an implication has a value at a point, collected in the order of first appearance.
ghost use Rattle.std.specs.Prelude.{◌≡◌, ◌||◌, [], ◌∷◌, is_some, map, IfOk, OnOk};
ghost use Rattle.lq_logic_predicates.specs.PredView.{formula_of, implication_of};
ghost use Rattle.lq_logic_predicates.specs.Table.{by_factors, literal_of};
ghost use Rattle.lq_logic_predicates.specs.TermView.{sum_of};
ghost use Rattle.lq_top_answers.specs.Failure.Collected.{valued_view, valued_views, with_each, with_one};
ghost use Rattle.lq_top_answers.specs.Failure.Occurrences.{in_formula, in_formulas, in_object, in_term, number, same_valued, shown};

use indexmap::IndexSet;
use lq_logic_predicates::{Closed, Pred, Symbol, Term};
use std::alloc::{AllocError, Global};

/// What has a value at a point.
#[derive(Clone, Copy, PartialEq, Eq, Hash)]
pub(crate) enum Valued<'a> {
    /// A whole number.
    Number(&'a Term),
    /// A truth value.
    Truth(Symbol),
    /// An object.
    Object(Symbol),
}

// Adds one, unless it is there.
fn add<'a>(seen: &mut IndexSet<Valued<'a>>, valued: Valued<'a>) -> Result<(), AllocError>
    ensures { OnOk result (valued_views seen.new.keys ≡ with_one same_valued (valued_views seen.old.keys)
        (valued_view valued.entry)) }
{
    seen.insert(valued)?;
    Ok(())
}

// Adds the variable that an object is.
fn add_object<'a>(seen: &mut IndexSet<Valued<'a>>, term: &'a Term) -> Result<(), AllocError>
    ensures { OnOk result (valued_views seen.new.keys ≡ with_each same_valued (valued_views seen.old.keys)
        (in_object (sum_of term.now))) }
{
    match term {
        Term::Var(x) => add(seen, Valued::Object(*x)),
        Term::Whole(_)
        | Term::Neg(_)
        | Term::Add(_, _)
        | Term::Sub(_, _)
        | Term::Mul(_, _)
        | Term::Div(_, _)
        | Term::Mod(_, _)
        | Term::Length(_)
        | Term::Measure(_, _) => Ok(()),
    }
}

fn is_literal(term: &Term) -> bool
    ensures { result ≡ is_some (literal_of (sum_of term.now)) }
{
    match term {
        Term::Whole(_) => true,
        Term::Var(_)
        | Term::Neg(_)
        | Term::Add(_, _)
        | Term::Sub(_, _)
        | Term::Mul(_, _)
        | Term::Div(_, _)
        | Term::Mod(_, _)
        | Term::Length(_)
        | Term::Measure(_, _) => false,
    }
}

// Whether one of the factors is a literal.
fn is_scaled(left: &Term, right: &Term) -> bool
    ensures { result ≡ (is_some (literal_of (sum_of left.now)) || is_some (literal_of (sum_of right.now))) }
{
    is_literal(left) || is_literal(right)
}

// Adds a product of these factors, unless one of them is a literal.
fn add_product<'a>(
    seen: &mut IndexSet<Valued<'a>>,
    term: &'a Term,
    left: &Term,
    right: &Term,
) -> Result<(), AllocError>
    ensures { OnOk result (valued_views seen.new.keys ≡ with_each same_valued (valued_views seen.old.keys)
        (by_factors (literal_of (sum_of left.now)) (literal_of (sum_of right.now)) []
        (number (sum_of term.now) ∷ []))) }
{
    if is_scaled(left, right) {
        Ok(())
    } else {
        add(seen, Valued::Number(term))
    }
}

// Adds what stands in a term.
#[tactic(auto, using(crate::proofs::FailureLemmas::Firsts::with_each_append))]
fn add_term<'a>(seen: &mut IndexSet<Valued<'a>>, term: &'a Term) -> Result<(), AllocError>
    ensures { OnOk result (valued_views seen.new.keys ≡ with_each same_valued (valued_views seen.old.keys)
        (in_term (sum_of term.now))) }
{
    match term {
        Term::Whole(_) => Ok(()),
        Term::Var(_) => add(seen, Valued::Number(term)),
        Term::Neg(a) => add_term(seen, a),
        Term::Add(a, b) | Term::Sub(a, b) => {
            add_term(seen, a)?;
            add_term(seen, b)
        }
        Term::Mul(a, b) => {
            add_term(seen, a)?;
            add_term(seen, b)?;
            add_product(seen, term, a, b)
        }
        Term::Div(a, b) | Term::Mod(a, b) => {
            add_term(seen, a)?;
            add_term(seen, b)?;
            add(seen, Valued::Number(term))
        }
        Term::Length(a) | Term::Measure(_, a) => {
            add_object(seen, a)?;
            add(seen, Valued::Number(term))
        }
    }
}

// Adds what stands in a predicate.
#[tactic(auto, using(crate::proofs::FailureLemmas::Firsts::with_each_append))]
fn add_pred<'a>(seen: &mut IndexSet<Valued<'a>>, pred: &'a Pred) -> Result<(), AllocError>
    ensures { OnOk result (valued_views seen.new.keys ≡ with_each same_valued (valued_views seen.old.keys)
        (in_formula (formula_of pred.now))) }
{
    match pred {
        Pred::True | Pred::False => Ok(()),
        Pred::Flag(x) => add(seen, Valued::Truth(*x)),
        Pred::Compare(_, a, b) => {
            add_term(seen, a)?;
            add_term(seen, b)
        }
        Pred::Same(a, b) => {
            add_object(seen, a)?;
            add_object(seen, b)
        }
        Pred::Not(p) => add_pred(seen, p),
        Pred::And(p, q) | Pred::Or(p, q) | Pred::Iff(p, q) => {
            add_pred(seen, p)?;
            add_pred(seen, q)
        }
    }
}

// Adds what stands in each of these.
fn add_preds<'a>(seen: &mut IndexSet<Valued<'a>>, preds: &'a [Pred]) -> Result<(), AllocError>
    ensures { OnOk result (valued_views seen.new.keys ≡ with_each same_valued (valued_views seen.old.keys)
        (in_formulas (map formula_of preds.now))) }
{
    for pred in preds {
        add_pred(seen, pred)?;
    }
    Ok(())
}

/// What an implication speaks of, each once, in the order of first appearance through the hypotheses and the goal.
pub(crate) fn collect(alloc: Global, closed: &Closed) -> Result<IndexSet<Valued<'_>>, AllocError>
    ensures { IfOk result (λ seen. valued_views seen.keys ≡ shown (implication_of closed.now)) }
{
    let mut seen = IndexSet::new(alloc);
    add_preds(&mut seen, closed.hypotheses.as_slice())?;
    add_pred(&mut seen, &closed.goal)?;
    Ok(seen)
}
