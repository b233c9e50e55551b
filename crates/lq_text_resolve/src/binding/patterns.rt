// Patterns with binders for their names.
ghost use Rattle.std.specs.Prelude.{◌≡◌, ◌+◌, length, IfOk, OnOk};
ghost use Rattle.lq_base_names.specs.declared.name.Binder.{Binder};
ghost use Rattle.lq_base_names.specs.declared.name.Name.{Name};
ghost use Rattle.lq_text_tree.specs.Pattern.{bound_in, bound_in_form, bound_in_all};
ghost use Rattle.lq_text_tree.specs.PatternView.{pat_view, pat_form_view, pats_view};
ghost use Rattle.lq_text_resolve.specs.Binding.Binding.{is_tuple, numbered, numbered_form, numbered_all};

use lq_base_names::{Binder, Name};
use lq_text_tree::{Pat, PatNode, Pats};
use std::alloc::{AllocError, Global};

/// Whether a pattern is a tuple.
pub(crate) fn is_tuple(pattern: &Pat<Name>) -> bool
    ensures { result ≡ is_tuple (pat_view Name (λ n. n.0) pattern.now) }
{
    match &pattern.node {
        PatNode::Tuple(_) => true,
        PatNode::Any | PatNode::Bind(_) | PatNode::Unit | PatNode::Build(_, _, _) => false,
    }
}

// The number, and the next one.
fn take_number(next: &mut u32) -> Result<u32, AllocError>
    ensures taken { IfOk result (λ n. n ≡ next.old) }
    ensures next { OnOk result (next.new ≡ next.old + 1) }
{
    let number = *next;
    match number.checked_add(1) {
        Some(behind) => {
            *next = behind;
            Ok(number)
        }
        None => Err(AllocError),
    }
}

/// The pattern with the binders from the next one on for its names, from left to right.
#[cycle(numbered)]
pub(crate) fn numbered(
    alloc: Global,
    next: &mut u32,
    pattern: &Pat<Name>,
) -> Result<Pat<Binder>, AllocError>
    ensures pattern { IfOk result (λ p. pat_view Binder (λ b. b.0) p
        ≡ numbered next.old (pat_view Name (λ n. n.0) pattern.now)) }
    ensures next { OnOk result (next.new ≡ next.old
        + length (bound_in (pat_view Name (λ n. n.0) pattern.now))) }
{
    let node = numbered_form(alloc, next, &pattern.node)?;
    Ok(Pat {
        place: pattern.place,
        node,
    })
}

#[cycle(numbered)]
fn numbered_form(
    alloc: Global,
    next: &mut u32,
    node: &PatNode<Name>,
) -> Result<PatNode<Binder>, AllocError>
    ensures form { IfOk result (λ f. pat_form_view Binder (λ b. b.0) f
        ≡ numbered_form next.old (pat_form_view Name (λ n. n.0) node.now)) }
    ensures next { OnOk result (next.new ≡ next.old
        + length (bound_in_form (pat_form_view Name (λ n. n.0) node.now))) }
{
    match node {
        PatNode::Any => Ok(PatNode::Any),
        PatNode::Unit => Ok(PatNode::Unit),
        PatNode::Bind(_) => Ok(PatNode::Bind(Binder(take_number(next)?))),
        PatNode::Tuple(row) => Ok(PatNode::Tuple(numbered_all(alloc, next, row)?)),
        PatNode::Build(name, place, row) => {
            Ok(PatNode::Build(*name, *place, numbered_all(alloc, next, row)?))
        }
    }
}

#[cycle(numbered)]
fn numbered_all(alloc: Global, next: &mut u32, row: &Pats<Name>) -> Result<Pats<Binder>, AllocError>
    ensures row { IfOk result (λ ps. pats_view Binder (λ b. b.0) ps
        ≡ numbered_all next.old (pats_view Name (λ n. n.0) row.now)) }
    ensures next { OnOk result (next.new ≡ next.old
        + length (bound_in_all (pats_view Name (λ n. n.0) row.now))) }
{
    let mut patterns = Pats::new(alloc)?;
    for at in 0..row.len() {
        if let Some(pattern) = row.get(at) {
            patterns.push(numbered(alloc, next, pattern)?)?;
        }
    }
    Ok(patterns)
}
