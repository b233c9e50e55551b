// The generalised definitions that a walk has left, and their uses.
ghost use Rattle.std.specs.Prelude.{◌≡◌, ℕ, ◌≤◌, false, length, slice_index_or, IfOk, OnOk};
ghost use Rattle.std.specs.Option.{option_map};
ghost use Rattle.lq_base_names.specs.declared.name.Binder.{Binder};
ghost use Rattle.lq_text_tree.specs.Items.{item_form_view};
ghost use Rattle.lq_text_tree.specs.TreeView.{tree_view};
ghost use Rattle.lq_text_walk.specs.Walk.Pending.{visit_view};
ghost use Rattle.lq_types_rules.specs.Typings.Uses.{Known, behind, behind_form, none_known, use_at, use_at_tree, with_general, with_name};
ghost use Rattle.lq_types_infer.specs.Instantiation.General.{HasGeneral, use_view, place_in};

use crate::inference::is_value;
use lq_text_tree::{Binder, Expr, ItemNode, PatNode};
use lq_text_walk::walk::{Leaf, Shape, Visit, shape_of};
use std::alloc::{AllocError, Global};

/// Of each binder whether it is that of a generalised definition; of those behind the end it isn't.
#[derive(Drop)]
pub(crate) struct Generalised {
    pub binders: Vec<bool>,
}

/// A use of a generalised definition: its node and the definition's binder.
#[derive(Clone, Copy)]
pub(crate) struct Use {
    pub node: u32,
    pub binder: u32,
}

// A table of so many, or more.
fn widen(table: &mut Vec<bool>, count: usize) -> Result<(), AllocError>
    ensures long { OnOk result (count ≤ length table.new.items) }
    ensures same { OnOk result ((i : ℕ) → slice_index_or table.new.items i false
        ≡ slice_index_or table.old.items i false) }
{
    for _ in table.len()..count {
        table.push(false)?;
    }
    Ok(())
}

impl Generalised {
    /// None.
    pub(crate) fn new(alloc: Global) -> Generalised
        ensures { HasGeneral result none_known }
    {
        Generalised {
            binders: Vec::new(alloc),
        }
    }

    // Whether a binder is one.
    fn has(&self, binder: u32) -> bool
        ensures { result ≡ slice_index_or self.now.binders.items binder false }
    {
        let at = binder as usize;
        at < self.binders.len() && self.binders[at]
    }

    // The use that a node is.
    fn use_in(&self, expr: &Expr<Binder>) -> Option<Use>
        ensures { (k : Known) → HasGeneral self.now k → option_map use_view result
            ≡ option_map place_in (use_at_tree k (tree_view Binder (λ b. b.0) expr.now)) }
    {
        match shape_of(&expr.node) {
            Shape::Leaf(Leaf::Use(x)) => {
                if self.has(x.0) {
                    Some(Use {
                        node: expr.id,
                        binder: x.0,
                    })
                } else {
                    None
                }
            }
            _ => None,
        }
    }

    /// The use of a generalised definition that is left here, if it is one.
    pub(crate) fn use_of(&self, visit: Visit<'_, Binder>) -> Option<Use>
        ensures { (k : Known) → HasGeneral self.now k → option_map use_view result
            ≡ option_map place_in (use_at k (visit_view Binder (λ b. b.0) visit.entry)) }
    {
        match visit {
            Visit::Leave(expr) => self.use_in(expr),
            _ => None,
        }
    }

    // A binder is generalised from here on.
    fn add(&mut self, binder: u32) -> Result<(), AllocError>
        ensures { OnOk result ((k : Known) → HasGeneral self.old k → HasGeneral self.new (with_general k binder)) }
    {
        let at = binder as usize;
        widen(&mut self.binders, at + 1)?;
        self.binders[at] = true;
        Ok(())
    }

    // A binder is that of a definition, by a value or by another expression.
    fn add_name(&mut self, binder: u32, value: bool) -> Result<(), AllocError>
        ensures { OnOk result ((k : Known) → HasGeneral self.old k → HasGeneral self.new (with_name k binder value)) }
    {
        if value { self.add(binder) } else { Ok(()) }
    }

    // The definitions with that of an item.
    fn add_item(&mut self, alloc: Global, item: &ItemNode<Binder>) -> Result<(), AllocError>
        ensures { OnOk result ((k : Known) → HasGeneral self.old k
            → HasGeneral self.new (behind_form k (item_form_view Binder (λ b. b.0) item.now))) }
    {
        match item {
            ItemNode::Type(_) => {}
            ItemNode::Let(pattern, bound) => {
                if let PatNode::Bind(x) = &pattern.node {
                    let value = is_value(alloc, bound)?;
                    self.add_name(x.0, value)?;
                }
            }
            ItemNode::LetRec(name, _) => self.add(name.0)?,
        }
        Ok(())
    }

    /// What is known behind a visit.
    pub(crate) fn leave(
        &mut self,
        alloc: Global,
        visit: Visit<'_, Binder>,
    ) -> Result<(), AllocError>
        ensures { OnOk result ((k : Known) → HasGeneral self.old k
            → HasGeneral self.new (behind k (visit_view Binder (λ b. b.0) visit.entry))) }
    {
        match visit {
            Visit::LeaveItem(item) => self.add_item(alloc, &item.node)?,
            _ => {}
        }
        Ok(())
    }
}
