// The names that patterns bind.
ghost use Rattle.std.specs.Prelude.{◌≡◌, ◌++◌, OnOk};
ghost use Rattle.lq_base_names.specs.declared.name.Binder.{Binder};
ghost use Rattle.lq_text_tree.specs.Pattern.{bound_in, bound_in_all, bound_in_form};
ghost use Rattle.lq_text_tree.specs.PatternView.{pat_form_view, pat_view, pats_view};
ghost use Rattle.lq_meaning_normalize.specs.MadeNames.Numbers.{binders_view};

use lq_base_names::Binder;
use lq_text_tree::{Pat, PatNode, Pats};
use std::alloc::AllocError;

/// Adds the names that a pattern binds behind others.
#[cycle(names)]
pub(crate) fn push_names(names: &mut Vec<Binder>, pattern: &Pat<Binder>) -> Result<(), AllocError>
    ensures { OnOk result (binders_view names.new.items ≡ binders_view names.old.items
        ++ bound_in (pat_view Binder (λ b. b.0) pattern.now)) }
{
    push_form(names, &pattern.node)
}

#[cycle(names)]
fn push_form(names: &mut Vec<Binder>, form: &PatNode<Binder>) -> Result<(), AllocError>
    ensures { OnOk result (binders_view names.new.items ≡ binders_view names.old.items
        ++ bound_in_form (pat_form_view Binder (λ b. b.0) form.now)) }
{
    match form {
        PatNode::Any | PatNode::Unit => Ok(()),
        PatNode::Bind(binder) => {
            names.push(*binder)?;
            Ok(())
        }
        PatNode::Tuple(row) => push_row(names, row),
        PatNode::Build(_, _, row) => push_row(names, row),
    }
}

#[cycle(names)]
fn push_row(names: &mut Vec<Binder>, row: &Pats<Binder>) -> Result<(), AllocError>
    ensures { OnOk result (binders_view names.new.items ≡ binders_view names.old.items
        ++ bound_in_all (pats_view Binder (λ b. b.0) row.now)) }
{
    for at in 0..row.len() {
        if let Some(pattern) = row.get(at) {
            push_names(names, pattern)?;
        }
    }
    Ok(())
}
