// Parameters: a tuple becomes a binder of its own and a match on it.
ghost use Rattle.std.specs.Prelude.{◌≡◌, IfOk, OnOk};
ghost use Rattle.lq_base_names.specs.declared.name.Binder.{Binder};
ghost use Rattle.lq_base_names.specs.declared.name.Name.{Name};
ghost use Rattle.lq_text_tree.specs.PatternView.{pat_view};
ghost use Rattle.lq_text_tree.specs.TreeView.{scoped_view};
ghost use Rattle.lq_text_resolve.specs.Binding.Machine.{parameter_in, body_in, values_under};
ghost use Rattle.lq_text_resolve.specs.Binding.Binding.{numbered};
ghost use Rattle.lq_text_resolve.specs.Binding.Making.{match_one};
ghost use Rattle.lq_text_resolve.specs.Binding.Views.{values_view};

use crate::binding::patterns::{is_tuple, numbered};
use crate::binding::values::{Value, pop_boxed};
use lq_base_names::{Binder, Name, Place};
use lq_text_tree::{Arm, Arms, Expr, Node, Pat, PatNode};
use std::alloc::{AllocError, Global};

/// The pattern with the binders from this one on for its names.
pub(crate) fn numbered_from(
    alloc: Global,
    start: u32,
    pattern: &Pat<Name>,
) -> Result<Pat<Binder>, AllocError>
    ensures { IfOk result (λ p. pat_view Binder (λ b. b.0) p
        ≡ numbered start (pat_view Name (λ n. n.0) pattern.now)) }
{
    let mut next = start;
    numbered(alloc, &mut next, pattern)
}

/// The parameter of a function, whose names have the binders from this one on. A tuple has the binder before.
pub(crate) fn taken_parameter(
    alloc: Global,
    start: u32,
    pattern: &Pat<Name>,
) -> Result<Pat<Binder>, AllocError>
    ensures { IfOk result (λ p. pat_view Binder (λ b. b.0) p
        ≡ parameter_in (pat_view Name (λ n. n.0) pattern.now) start) }
{
    if is_tuple(pattern) {
        Ok(Pat {
            place: pattern.place,
            node: PatNode::Bind(Binder(start.saturating_sub(1))),
        })
    } else {
        numbered_from(alloc, start, pattern)
    }
}

// A match with one arm.
fn match_one(
    alloc: Global,
    id: u32,
    matched: Box<Expr<Binder>>,
    pattern: Pat<Binder>,
    body: Box<Expr<Binder>>,
) -> Result<Expr<Binder>, AllocError>
    ensures { IfOk result (λ t. scoped_view t ≡ match_one id (pat_view Binder (λ b. b.0) pattern)
        (scoped_view matched.value) (scoped_view body.value)) }
{
    let place = pattern.place;
    let mut arms = Arms::new(alloc)?;
    arms.push(Arm { pattern, body })?;
    Ok(Expr {
        id,
        place,
        node: Node::Match(matched, arms),
    })
}

/// The body of a function once its parameter is taken, of the last value: of a tuple, a match under this number on the value before.
pub(crate) fn taken_body(
    alloc: Global,
    values: &mut Vec<Value>,
    place: Place,
    parameter: &Pat<Name>,
    start: u32,
    number: u32,
) -> Result<Box<Expr<Binder>>, AllocError>
    ensures body { IfOk result (λ b. scoped_view b.value ≡ body_in place
        (pat_view Name (λ n. n.0) parameter.now) start (values_view values.old.items) number) }
    ensures values { OnOk result (values_view values.new.items
        ≡ values_under (pat_view Name (λ n. n.0) parameter.now) (values_view values.old.items)) }
{
    let body = pop_boxed(alloc, values, place)?;
    if is_tuple(parameter) {
        let matched = pop_boxed(alloc, values, place)?;
        let pattern = numbered_from(alloc, start, parameter)?;
        let tree = match_one(alloc, number, matched, pattern, body)?;
        Ok(Box::new(alloc, tree)?)
    } else {
        Ok(body)
    }
}
