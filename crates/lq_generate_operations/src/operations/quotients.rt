// The types of quotients and remainders.
ghost use Rattle.std.specs.Prelude.{◌≡◌, ℕ, suc, pos, ◌<◌, ◌<ℤ◌, IfOk};
ghost use Rattle.lq_refined_rules.specs.Checks.Basis as checks;
ghost use Rattle.lq_refined_rules.specs.Checks.Operation.{quotient_fact, quotient_facts, remainder_fact, type_of, value};
ghost use Rattle.lq_refined_rules.specs.Checks.Pure.{sum_of as sum_in};
ghost use Rattle.lq_base_names.specs.declared.operation.CompareOp.TheVariants as op;
ghost use Rattle.lq_refined_types.specs.Parts.Part.{Scopes as ScopeLists, known};
ghost use Rattle.lq_refined_templates.specs.Programs.BlockView.{quotient_view};
ghost use Rattle.lq_refined_templates.specs.Programs.PureView.{pure_view};
ghost use Rattle.lq_logic_predicates.specs.Formula.{compare, disjunction};
ghost use Rattle.lq_logic_predicates.specs.PredView.{formula_of};
ghost use Rattle.lq_logic_predicates.specs.Sum.{add, mul, whole};
ghost use Rattle.lq_logic_predicates.specs.TermView.{sum_of};
ghost use Rattle.lq_refined_types.specs.Types.Context.{Context};
ghost use Rattle.lq_refined_subtyping.specs.Table.Whole.{count_of, refined_at, Grows};
ghost use Rattle.lq_refined_substitution.specs.Substitution.Views.{parts_view};
ghost use Rattle.lq_generate_operations.specs.Operations.Quotients.{bounded, downwards, is_quotient, least_upwards, most_downwards, quotient_parts, unbounded, upwards};

use crate::basis::term;
use crate::operations::demands::{both, not_negative};
use lq_base_names::CompareOp;
use lq_logic_predicates::{Pred, Symbol, Term};
use lq_refined_substitution::substitution::{Part, Parts};
use lq_refined_subtyping::table::{Form, RefinedTypes};
use lq_refined_templates::programs::{Pure, Quotient};
use std::alloc::{AllocError, Global};

// At least one of two predicates.
fn either(alloc: Global, first: Pred, second: Pred) -> Result<Pred, AllocError>
    ensures { IfOk result (λ pred. formula_of pred ≡ disjunction (formula_of first) (formula_of second)) }
{
    Ok(Pred::Or(Box::new(alloc, first)?, Box::new(alloc, second)?))
}

// The product of a divisor and the quotient.
fn product(alloc: Global, divisor: i128) -> Result<Term, AllocError>
    ensures { IfOk result (λ made. sum_of made ≡ mul (whole divisor) value) }
{
    let value = Term::Var(Symbol::Value);
    Ok(Term::Mul(
        Box::new(alloc, Term::Whole(divisor))?,
        Box::new(alloc, value)?,
    ))
}

// A term and a number that is added to it.
fn more(alloc: Global, term: Term, rest: i128) -> Result<Term, AllocError>
    ensures { IfOk result (λ made. sum_of made ≡ add (sum_of term) (whole rest)) }
{
    Ok(Term::Add(Box::new(alloc, term)?, Box::new(alloc, Term::Whole(rest))?))
}

// That an expression is at most a term.
fn at_most(alloc: Global, e: &Pure, most: Term) -> Result<Pred, AllocError>
    ensures { IfOk result (λ pred. formula_of pred ≡ compare op.Le (sum_in (pure_view e.now)) (sum_of most)) }
{
    let least = term(alloc, e)?;
    Ok(Pred::Compare(CompareOp::Le, least, most))
}

// That an expression is at least a term.
fn at_least(alloc: Global, e: &Pure, least: Term) -> Result<Pred, AllocError>
    ensures { IfOk result (λ pred. formula_of pred ≡ compare op.Le (sum_of least) (sum_in (pure_view e.now))) }
{
    let most = term(alloc, e)?;
    Ok(Pred::Compare(CompareOp::Le, least, most))
}

// That an expression is below a number.
fn below(alloc: Global, e: &Pure, limit: i128) -> Result<Pred, AllocError>
    ensures { IfOk result (λ pred. formula_of pred ≡ compare op.Lt (sum_in (pure_view e.now)) (whole limit)) }
{
    let least = term(alloc, e)?;
    Ok(Pred::Compare(CompareOp::Lt, least, Term::Whole(limit)))
}

// That the product is at most the dividend.
fn above_product(alloc: Global, dividend: &Pure, divisor: i128) -> Result<Pred, AllocError>
    ensures { IfOk result (λ pred. formula_of pred
        ≡ compare op.Le (mul (whole divisor) value) (sum_in (pure_view dividend.now))) }
{
    let product = product(alloc, divisor)?;
    at_least(alloc, dividend, product)
}

// That the dividend is at most the product.
fn below_product(alloc: Global, dividend: &Pure, divisor: i128) -> Result<Pred, AllocError>
    ensures { IfOk result (λ pred. formula_of pred
        ≡ compare op.Le (sum_in (pure_view dividend.now)) (mul (whole divisor) value)) }
{
    let product = product(alloc, divisor)?;
    at_most(alloc, dividend, product)
}

// That the dividend is at most the product and a rest.
fn below_rest(alloc: Global, dividend: &Pure, divisor: i128, rest: i128) -> Result<Pred, AllocError>
    ensures { IfOk result (λ pred. formula_of pred
        ≡ compare op.Le (sum_in (pure_view dividend.now)) (add (mul (whole divisor) value) (whole rest))) }
{
    let product = product(alloc, divisor)?;
    let most = more(alloc, product, rest)?;
    at_most(alloc, dividend, most)
}

// That the product is at most the dividend and a rest.
fn above_rest(alloc: Global, dividend: &Pure, divisor: i128, rest: i128) -> Result<Pred, AllocError>
    ensures { IfOk result (λ pred. formula_of pred
        ≡ compare op.Le (mul (whole divisor) value) (add (sum_in (pure_view dividend.now)) (whole rest))) }
{
    let least = product(alloc, divisor)?;
    let dividend = term(alloc, dividend)?;
    let most = more(alloc, dividend, rest)?;
    Ok(Pred::Compare(CompareOp::Le, least, most))
}

// That the dividend isn't below 0, nor below the product.
fn least_upwards(alloc: Global, dividend: &Pure, divisor: i128) -> Result<Pred, AllocError>
    ensures { IfOk result (λ pred. formula_of pred ≡ least_upwards (sum_in (pure_view dividend.now)) divisor) }
{
    let sign = not_negative(alloc, dividend)?;
    let least = above_product(alloc, dividend, divisor)?;
    both(alloc, sign, least)
}

// That the dividend is below 0, and at most the product.
fn most_downwards(alloc: Global, dividend: &Pure, divisor: i128) -> Result<Pred, AllocError>
    ensures { IfOk result (λ pred. formula_of pred ≡ most_downwards (sum_in (pure_view dividend.now)) divisor) }
{
    let sign = below(alloc, dividend, 0)?;
    let most = below_product(alloc, dividend, divisor)?;
    both(alloc, sign, most)
}

// That the dividend isn't below 0, and is no less than the product and at most the rest above it.
fn upwards(alloc: Global, dividend: &Pure, divisor: i128, rest: i128) -> Result<Pred, AllocError>
    ensures { IfOk result (λ pred. formula_of pred ≡ upwards (sum_in (pure_view dividend.now)) divisor rest) }
{
    let least = least_upwards(alloc, dividend, divisor)?;
    let most = below_rest(alloc, dividend, divisor, rest)?;
    both(alloc, least, most)
}

// That the dividend is below 0, and is at most the product and no less than the rest below it.
fn downwards(alloc: Global, dividend: &Pure, divisor: i128, rest: i128) -> Result<Pred, AllocError>
    ensures { IfOk result (λ pred. formula_of pred ≡ downwards (sum_in (pure_view dividend.now)) divisor rest) }
{
    let most = most_downwards(alloc, dividend, divisor)?;
    let least = above_rest(alloc, dividend, divisor, rest)?;
    both(alloc, most, least)
}

// What bounds the dividend of a quotient by a divisor above 0.
fn quotient_fact(alloc: Global, dividend: &Pure, divisor: i128) -> Result<Pred, AllocError>
    requires { pos 0 <ℤ divisor }
    ensures { IfOk result (λ pred. (c : ℕ) → divisor ≡ pos (suc c)
        → formula_of pred ≡ quotient_fact (sum_in (pure_view dividend.now)) c) }
{
    let rest = divisor - 1;
    let up = upwards(alloc, dividend, divisor, rest)?;
    let down = downwards(alloc, dividend, divisor, rest)?;
    either(alloc, up, down)
}

// What is known of a quotient besides what it is.
fn quotient_facts(alloc: Global, dividend: &Pure, divisor: &Pure) -> Result<Parts, AllocError>
    ensures { IfOk result (λ made. parts_view made
        ≡ quotient_facts (sum_in (pure_view dividend.now)) (sum_in (pure_view divisor.now))) }
{
    match term(alloc, divisor)? {
        Term::Whole(number) => {
            if number > 0 {
                let fact = quotient_fact(alloc, dividend, number)?;
                Parts::single(alloc, Part::Known(fact))
            } else {
                Ok(Parts::new(alloc))
            }
        }
        Term::Var(_)
        | Term::Neg(_)
        | Term::Add(_, _)
        | Term::Sub(_, _)
        | Term::Mul(_, _)
        | Term::Div(_, _)
        | Term::Mod(_, _)
        | Term::Length(_)
        | Term::Measure(_, _) => Ok(Parts::new(alloc)),
    }
}

// That nothing bounds a remainder: the dividend is below 0, or the divisor below 1.
fn unbounded(alloc: Global, dividend: &Pure, divisor: &Pure) -> Result<Pred, AllocError>
    ensures { IfOk result (λ pred. formula_of pred ≡ unbounded (sum_in (pure_view dividend.now)) (sum_in (pure_view divisor.now))) }
{
    let negative = below(alloc, dividend, 0)?;
    let low = below(alloc, divisor, 1)?;
    either(alloc, negative, low)
}

// That the value isn't below 0, and is below the divisor.
fn bounded(alloc: Global, divisor: &Pure) -> Result<Pred, AllocError>
    ensures { IfOk result (λ pred. formula_of pred ≡ bounded (sum_in (pure_view divisor.now))) }
{
    let limit = term(alloc, divisor)?;
    let below = Pred::Compare(CompareOp::Lt, Term::Var(Symbol::Value), limit);
    let least = Pred::Compare(CompareOp::Le, Term::Whole(0), Term::Var(Symbol::Value));
    both(alloc, least, below)
}

// What is known of a remainder besides what it is.
fn remainder_fact(alloc: Global, dividend: &Pure, divisor: &Pure) -> Result<Pred, AllocError>
    ensures { IfOk result (λ pred. formula_of pred
        ≡ remainder_fact (sum_in (pure_view dividend.now)) (sum_in (pure_view divisor.now))) }
{
    let unbounded = unbounded(alloc, dividend, divisor)?;
    let bounded = bounded(alloc, divisor)?;
    either(alloc, unbounded, bounded)
}

// That the value is the quotient or the remainder.
fn is_quotient(
    alloc: Global,
    quotient: Quotient,
    dividend: &Pure,
    divisor: &Pure,
) -> Result<Pred, AllocError>
    ensures { IfOk result (λ pred. formula_of pred
        ≡ is_quotient quotient (sum_in (pure_view dividend.now)) (sum_in (pure_view divisor.now))) }
{
    let left = Box::new(alloc, term(alloc, dividend)?)?;
    let right = Box::new(alloc, term(alloc, divisor)?)?;
    let value = Term::Var(Symbol::Value);
    match quotient {
        Quotient::Div => Ok(Pred::Compare(CompareOp::Eq, value, Term::Div(left, right))),
        Quotient::Mod => Ok(Pred::Compare(CompareOp::Eq, value, Term::Mod(left, right))),
    }
}

// What is known of a quotient or a remainder.
fn facts(
    alloc: Global,
    quotient: Quotient,
    dividend: &Pure,
    divisor: &Pure,
) -> Result<Parts, AllocError>
    ensures { IfOk result (λ made. parts_view made
        ≡ quotient_parts quotient (sum_in (pure_view dividend.now)) (sum_in (pure_view divisor.now))) }
{
    let is = is_quotient(alloc, quotient, dividend, divisor)?;
    let mut parts = Parts::single(alloc, Part::Known(is))?;
    match quotient {
        Quotient::Div => {
            let more = quotient_facts(alloc, dividend, divisor)?;
            parts.extend(alloc, &more)?;
        }
        Quotient::Mod => {
            let fact = remainder_fact(alloc, dividend, divisor)?;
            parts.push(Part::Known(fact))?;
        }
    }
    Ok(parts)
}

/// The number of the type of a quotient or of a remainder: that it is this, and what bounds it.
pub fn quotient_type(
    alloc: Global,
    types: &mut RefinedTypes,
    quotient: Quotient,
    dividend: &Pure,
    divisor: &Pure,
) -> Result<usize, AllocError>
    ensures refined { IfOk result (λ r. (scopes : ScopeLists) (P : checks.Basis) (Γ : Context) → refined_at scopes types.new r
        ≡ type_of P Γ (quotient_view quotient (pure_view dividend.now) (pure_view divisor.now))) }
    ensures there { IfOk result (λ r. r < count_of types.new) }
    ensures grows { Grows types.old types.new }
{
    let parts = facts(alloc, quotient, dividend, divisor)?;
    let made = types.push(Form::Int, parts)?;
    Ok(made)
}
