// What is demanded of the operands of operations.
ghost use Rattle.std.specs.Prelude.{◌≡◌, IfOk};
ghost use Rattle.lq_refined_rules.specs.Checks.Operation.{in_range, not_negative, not_zero};
ghost use Rattle.lq_refined_rules.specs.Checks.Pure.{sum_of};
ghost use Rattle.lq_base_names.specs.declared.operation.CompareOp.TheVariants.{Lt};
ghost use Rattle.lq_refined_templates.specs.Programs.PureView.{pure_view, use_view};
ghost use Rattle.lq_logic_predicates.specs.Formula.{compare, conjunction};
ghost use Rattle.lq_logic_predicates.specs.PredView.{formula_of};
ghost use Rattle.lq_logic_predicates.specs.Sum.{len, var};
ghost use Rattle.lq_refined_types.specs.Types.Operations.{symbol_of};

use crate::basis::term;
use lq_base_names::CompareOp;
use lq_logic_predicates::{Pred, Symbol, Term};
use lq_refined_templates::programs::{Pure, Use};
use std::alloc::{AllocError, Global};

// Both of two predicates.
pub(crate) fn both(alloc: Global, first: Pred, second: Pred) -> Result<Pred, AllocError>
    ensures { IfOk result (λ pred. formula_of pred ≡ conjunction (formula_of first) (formula_of second)) }
{
    Ok(Pred::And(Box::new(alloc, first)?, Box::new(alloc, second)?))
}

// That an index is below the length of an array.
fn below_length(alloc: Global, used: Use, index: &Pure) -> Result<Pred, AllocError>
    ensures { IfOk result (λ pred. formula_of pred
        ≡ compare Lt (sum_of (pure_view index.now)) (len (var (symbol_of used.name.0)))) }
{
    let array = Box::new(alloc, Term::Var(Symbol::Bound(used.name)))?;
    let index = term(alloc, index)?;
    Ok(Pred::Compare(CompareOp::Lt, index, Term::Length(array)))
}

/// That an index is one of an array's.
pub fn in_range(alloc: Global, used: Use, index: &Pure) -> Result<Pred, AllocError>
    ensures { IfOk result (λ pred. formula_of pred ≡ in_range (use_view used) (pure_view index.now)) }
{
    let above = not_negative(alloc, index)?;
    let below = below_length(alloc, used, index)?;
    both(alloc, above, below)
}

/// That a divisor isn't 0.
pub fn not_zero(alloc: Global, divisor: &Pure) -> Result<Pred, AllocError>
    ensures { IfOk result (λ pred. formula_of pred ≡ not_zero (pure_view divisor.now)) }
{
    Ok(Pred::Compare(CompareOp::Ne, term(alloc, divisor)?, Term::Whole(0)))
}

/// That a length isn't below 0.
pub fn not_negative(alloc: Global, length: &Pure) -> Result<Pred, AllocError>
    ensures { IfOk result (λ pred. formula_of pred ≡ not_negative (pure_view length.now)) }
{
    Ok(Pred::Compare(CompareOp::Le, Term::Whole(0), term(alloc, length)?))
}
