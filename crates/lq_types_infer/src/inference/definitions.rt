// The definitions that a walk has left.
ghost use Rattle.std.specs.Prelude.{◌≡◌, ℕ, ◌+◌, ◌<◌, ◌≤◌, List, None, map, length, slice_index_or, IfOk, IfSome, OnOk};
ghost use Rattle.std.specs.Option.{option_map};
ghost use Rattle.lq_base_names.specs.declared.name.Binder.{Binder};
ghost use Rattle.lq_text_tree.specs.Items.{item_form_view};
ghost use Rattle.lq_text_tree.specs.TreeView.{tree_view};
ghost use Rattle.lq_text_walk.specs.Walk.Pending.{visit_view};
ghost use Rattle.lq_types_infer.specs.Inference.Defining.{HasKnown, use_view};
ghost use Rattle.lq_types_rules.specs.Typings.Uses.{Known, behind, behind_form, none_known, use_at, use_at_tree, with_general, with_name, with_plain};

use crate::inference::values::is_value;
use lq_text_tree::{Binder, Expr, ItemNode, PatNode};
use lq_text_walk::walk::{Leaf, Shape, Visit, shape_of};
use std::alloc::{AllocError, Global};

/// The definitions so far: of each binder, where it is generalised, the number of definitions before it that aren't; and the binders of
/// those, in their order.
#[derive(Drop)]
pub(crate) struct Definitions {
    pub general: Vec<Option<usize>>,
    pub plain: Vec<u32>,
}

/// A use of a generalised definition: its node, the definition's binder, and how many definitions before it aren't generalised.
#[derive(Clone, Copy)]
pub(crate) struct Use {
    pub node: u32,
    pub binder: u32,
    pub before: usize,
}

// A table of so many, or more.
fn widen(table: &mut Vec<Option<usize>>, count: usize) -> Result<(), AllocError>
    ensures long { OnOk result (count ≤ length table.new.items) }
    ensures same { OnOk result ((i : ℕ) → slice_index_or table.new.items i None
        ≡ slice_index_or table.old.items i None) }
{
    for _ in table.len()..count {
        table.push(None)?;
    }
    Ok(())
}

impl Definitions {
    /// None.
    pub(crate) fn new(alloc: Global) -> Definitions
        ensures { HasKnown result none_known }
    {
        Definitions {
            general: Vec::new(alloc),
            plain: Vec::new(alloc),
        }
    }

    // The number that a generalised binder has.
    fn count_before(&self, binder: u32) -> Option<usize>
        ensures { result ≡ slice_index_or self.now.general.items binder None }
    {
        let at = binder as usize;
        if at < self.general.len() {
            self.general[at]
        } else {
            None
        }
    }

    // The use that a node is.
    fn use_in(&self, expr: &Expr<Binder>) -> Option<Use>
        ensures found { (k : Known) → HasKnown self.now k → option_map (use_view self.now.plain.items) result
            ≡ use_at_tree k (tree_view Binder (λ b. b.0) expr.now) }
        ensures low { (k : Known) → HasKnown self.now k
            → IfSome result (λ u. u.before ≤ length self.now.plain.items) }
    {
        match shape_of(&expr.node) {
            Shape::Leaf(Leaf::Use(x)) => match self.count_before(x.0) {
                Some(before) => Some(Use {
                    node: expr.id,
                    binder: x.0,
                    before,
                }),
                None => None,
            },
            _ => None,
        }
    }

    /// The use of a generalised definition that is left here, if it is one.
    pub(crate) fn use_of(&self, visit: Visit<'_, Binder>) -> Option<Use>
        ensures found { (k : Known) → HasKnown self.now k → option_map (use_view self.now.plain.items) result
            ≡ use_at k (visit_view Binder (λ b. b.0) visit.entry) }
        ensures low { (k : Known) → HasKnown self.now k
            → IfSome result (λ u. u.before ≤ length self.now.plain.items) }
    {
        match visit {
            Visit::Leave(expr) => self.use_in(expr),
            _ => None,
        }
    }

    // A binder is generalised from here on.
    fn add_general(&mut self, binder: u32) -> Result<(), AllocError>
        ensures { OnOk result ((k : Known) → HasKnown self.old k → HasKnown self.new (with_general k binder)) }
    {
        let at = binder as usize;
        widen(&mut self.general, at + 1)?;
        self.general[at] = Some(self.plain.len());
        Ok(())
    }

    // A binder isn't generalised.
    fn add_plain(&mut self, binder: u32) -> Result<(), AllocError>
        ensures { OnOk result ((k : Known) → HasKnown self.old k → HasKnown self.new (with_plain k binder)) }
    {
        self.plain.push(binder)?;
        Ok(())
    }

    // A binder is that of a definition, by a value or by another expression.
    fn add_name(&mut self, binder: u32, value: bool) -> Result<(), AllocError>
        ensures { OnOk result ((k : Known) → HasKnown self.old k → HasKnown self.new (with_name k binder value)) }
    {
        if value {
            self.add_general(binder)
        } else {
            self.add_plain(binder)
        }
    }

    // The definitions with that of an item.
    fn add_item(&mut self, alloc: Global, item: &ItemNode<Binder>) -> Result<(), AllocError>
        ensures { OnOk result ((k : Known) → HasKnown self.old k
            → HasKnown self.new (behind_form k (item_form_view Binder (λ b. b.0) item.now))) }
    {
        match item {
            ItemNode::Type(_) => {}
            ItemNode::Let(pattern, bound) => {
                if let PatNode::Bind(x) = &pattern.node {
                    let value = is_value(alloc, bound)?;
                    self.add_name(x.0, value)?;
                }
            }
            ItemNode::LetRec(name, _) => self.add_general(name.0)?,
        }
        Ok(())
    }

    /// What is known behind a visit.
    pub(crate) fn leave(
        &mut self,
        alloc: Global,
        visit: Visit<'_, Binder>,
    ) -> Result<(), AllocError>
        ensures { OnOk result ((k : Known) → HasKnown self.old k
            → HasKnown self.new (behind k (visit_view Binder (λ b. b.0) visit.entry))) }
    {
        match visit {
            Visit::LeaveItem(item) => self.add_item(alloc, &item.node)?,
            _ => {}
        }
        Ok(())
    }
}
