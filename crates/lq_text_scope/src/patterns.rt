// The names of patterns.
ghost use Rattle.std.specs.Prelude.{◌≡◌, ◌++◌, map, OnOk};
ghost use Rattle.lq_base_names.specs.declared.name.Name.{Name};
ghost use Rattle.lq_text_tree.specs.PatternView.{pat_view, pat_form_view, pats_view};
ghost use Rattle.lq_text_scope.specs.Complaints.{least_with};
ghost use Rattle.lq_text_scope.specs.Growing.{Extends};
ghost use Rattle.lq_text_scope.specs.Patterns.{binders_in, binders_in_form, binders_in_all, built_in, built_in_form, built_in_all};
ghost use Rattle.lq_text_scope.specs.Views.{binding_view, found_view};

use crate::binders::Binding;
use crate::complaint::{Cause, Least};
use crate::scope::Scope;
use lq_base_names::{Name, Place};
use lq_text_tree::{Pat, PatNode, Pats};
use std::alloc::AllocError;

/// The names that a pattern binds, behind these.
#[cycle(binders)]
#[tactic(auto, using(crate::specs::Growing::growing))]
pub fn push_binders(found: &mut Vec<Binding>, pattern: &Pat<Name>) -> Result<(), AllocError>
    ensures bound { OnOk result (map binding_view found.new.items ≡ map binding_view found.old.items
        ++ binders_in (pat_view Name (λ n. n.0) pattern.now)) }
    ensures begins { Extends found.old.items found.new.items }
{
    push_form(found, pattern.place, &pattern.node)
}

#[cycle(binders)]
#[tactic(auto, using(crate::specs::Growing::growing))]
fn push_form(found: &mut Vec<Binding>, place: Place, node: &PatNode<Name>) -> Result<(), AllocError>
    ensures bound { OnOk result (map binding_view found.new.items ≡ map binding_view found.old.items
        ++ binders_in_form place (pat_form_view Name (λ n. n.0) node.now)) }
    ensures begins { Extends found.old.items found.new.items }
{
    match node {
        PatNode::Any | PatNode::Unit => Ok(()),
        PatNode::Bind(name) => {
            found.push(Binding { name: *name, place })?;
            Ok(())
        }
        PatNode::Tuple(row) => push_row(found, row),
        PatNode::Build(_, _, row) => push_row(found, row),
    }
}

#[cycle(binders)]
#[tactic(auto, using(crate::specs::Growing::growing))]
fn push_row(found: &mut Vec<Binding>, row: &Pats<Name>) -> Result<(), AllocError>
    ensures bound { OnOk result (map binding_view found.new.items ≡ map binding_view found.old.items
        ++ binders_in_all (pats_view Name (λ n. n.0) row.now)) }
    ensures begins { Extends found.old.items found.new.items }
{
    for at in 0..row.len() {
        if let Some(pattern) = row.get(at) {
            push_binders(found, pattern)?;
        }
    }
    Ok(())
}

/// What there is to say of the constructors of a pattern.
#[cycle(built)]
pub(crate) fn note_built(known: &Scope, least: &mut Least, pattern: &Pat<Name>)
    ensures { found_view least.new.found ≡ least_with (found_view least.old.found)
        (built_in known.now (pat_view Name (λ n. n.0) pattern.now)) }
{
    note_form(known, least, &pattern.node);
}

#[cycle(built)]
fn note_form(known: &Scope, least: &mut Least, node: &PatNode<Name>)
    ensures { found_view least.new.found ≡ least_with (found_view least.old.found)
        (built_in_form known.now (pat_form_view Name (λ n. n.0) node.now)) }
{
    match node {
        PatNode::Any | PatNode::Unit | PatNode::Bind(_) => {}
        PatNode::Tuple(row) => note_row(known, least, row),
        PatNode::Build(name, place, row) => {
            least.note_count(*place, known.find(*name), Cause::Unknown(*name), row.len());
            note_row(known, least, row);
        }
    }
}

#[cycle(built)]
fn note_row(known: &Scope, least: &mut Least, row: &Pats<Name>)
    ensures { found_view least.new.found ≡ least_with (found_view least.old.found)
        (built_in_all known.now (pats_view Name (λ n. n.0) row.now)) }
{
    for at in 0..row.len() {
        if let Some(pattern) = row.get(at) {
            note_built(known, least, pattern);
        }
    }
}
