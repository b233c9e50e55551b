// Syntactic values.
ghost use Rattle.std.specs.Prelude.{◌≡◌, ◌++◌, OnOk, IfOk};
ghost use Rattle.lq_base_names.specs.declared.name.Binder.{Binder};
ghost use Rattle.lq_text_tree.specs.TreeView.{tree_view, trees_view};
ghost use Rattle.lq_text_walk.specs.Walk.Shape.{listed};
ghost use Rattle.lq_text_walk.specs.Walk.View.{leaf_view, row_view};
ghost use Rattle.lq_types_infer.specs.Inference.Pending.{pending_trees};
ghost use Rattle.lq_types_rules.specs.Typings.Uses.{is_value, is_value_leaf, is_value_row};

use lq_text_tree::{Binder, Expr, Exprs};
use lq_text_walk::walk::{Leaf, Row, Shape, shape_of};
use std::alloc::{AllocError, Global};

/// An expression that is still to be looked at.
#[derive(Clone, Copy)]
struct Pending<'a>(&'a Expr<Binder>);

// Whether a node without parts is a value.
fn is_value_leaf(leaf: Leaf<Binder>) -> bool
    ensures { result ≡ is_value_leaf (leaf_view Binder (λ b. b.0) leaf) }
{
    match leaf {
        Leaf::Whole(_) | Leaf::Flag(_) | Leaf::Unit | Leaf::Use(_) => true,
        Leaf::Qualified(_, _) | Leaf::AssertFalse | Leaf::MapEmpty => false,
    }
}

// Whether a node with a row of values for its parts is a value.
fn is_value_row(row: Row) -> bool
    ensures { result ≡ is_value_row (row_view row) }
{
    match row {
        Row::Tuple | Row::Build(_, _) | Row::ListOf => true,
        Row::Chain => false,
    }
}

// The parts of a row are to be looked at.
fn push_parts<'a>(
    pending: &mut Vec<Pending<'a>>,
    parts: &'a Exprs<Binder>,
) -> Result<(), AllocError>
    ensures { OnOk result (pending_trees pending.new.items
        ≡ pending_trees pending.old.items ++ listed (trees_view Binder (λ b. b.0) parts.now)) }
{
    for at in 0..parts.len() {
        if let Some(part) = parts.get(at) {
            pending.push(Pending(part))?;
        }
    }
    Ok(())
}

/// Whether an expression is a syntactic value: a literal, a variable, a function, or a tuple, a constructor or a list literal of such.
/// It looks at each part once, with a list of what is left in place of a stack of calls.
pub fn is_value(alloc: Global, expr: &Expr<Binder>) -> Result<bool, AllocError>
    ensures { IfOk result (λ yes. yes ≡ is_value (tree_view Binder (λ b. b.0) expr.now)) }
{
    let mut pending = Vec::new(alloc);
    pending.push(Pending(expr))?;
    while let Some(Pending(part)) = pending.pop() {
        match shape_of(&part.node) {
            Shape::Leaf(leaf) => {
                if !is_value_leaf(leaf) {
                    return Ok(false);
                }
            }
            Shape::Row(row, parts) => {
                if !is_value_row(row) {
                    return Ok(false);
                }
                push_parts(&mut pending, parts)?;
            }
            Shape::Fun(_, _) => {}
            Shape::One(_, _) => return Ok(false),
            Shape::Two(_, _, _) => return Ok(false),
            Shape::Three(_, _, _, _) => return Ok(false),
            Shape::Let(_, _, _) => return Ok(false),
            Shape::LetRec(_, _, _) => return Ok(false),
            Shape::Match(_, _) => return Ok(false),
        }
    }
    Ok(true)
}
