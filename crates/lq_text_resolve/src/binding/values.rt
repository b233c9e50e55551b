// What the parts of a tree have become, the last on top.
ghost use Rattle.std.specs.Prelude.{◌≡◌, IfOk, reverse};
ghost use Rattle.lq_text_tree.specs.TreeView.{scoped_view, exprs_items};
ghost use Rattle.lq_text_resolve.specs.Binding.Making.{part};
ghost use Rattle.lq_text_resolve.specs.Binding.Machine.{top, below, first_tree, rest_trees, last_trees, values_below, first, rest, last_starts, starts_below};
ghost use Rattle.lq_text_resolve.specs.Binding.Views.{value_view, values_view, trees_in};

use crate::binding::primitives::Head;
use lq_base_names::{Binder, Place};
use lq_text_tree::{Expr, Exprs, Node};
use std::alloc::{AllocError, Global};

/// What a tree becomes.
#[derive(Drop)]
pub(crate) enum Value {
    Whole(Expr<Binder>),
    Partly(Head),
}

impl Value {
    /// The tree that a value is, as a part of what stands at this place: each part of a program without complaints is a tree.
    fn part(self, place: Place) -> Expr<Binder>
        ensures { scoped_view result ≡ part place (value_view self) }
    {
        match self {
            Value::Whole(tree) => tree,
            Value::Partly(_) => Expr {
                id: 0,
                place,
                node: Node::Unit,
            },
        }
    }
}

/// The last value.
pub(crate) fn pop(values: &mut Vec<Value>) -> Value
    ensures top { value_view result ≡ top (values_view values.old.items) }
    ensures below { values_view values.new.items ≡ below (values_view values.old.items) }
{
    match values.pop() {
        Some(value) => value,
        None => Value::Partly(Head::Read),
    }
}

/// The last value as a part.
pub(crate) fn pop_part(values: &mut Vec<Value>, place: Place) -> Expr<Binder>
    ensures top { scoped_view result ≡ part place (top (values_view values.old.items)) }
    ensures below { values_view values.new.items ≡ below (values_view values.old.items) }
{
    pop(values).part(place)
}

/// The same, on the heap.
pub(crate) fn pop_boxed(
    alloc: Global,
    values: &mut Vec<Value>,
    place: Place,
) -> Result<Box<Expr<Binder>>, AllocError>
    ensures top { IfOk result (λ b. scoped_view b.value ≡ part place (top (values_view values.old.items))) }
    ensures below { values_view values.new.items ≡ below (values_view values.old.items) }
{
    let tree = pop_part(values, place);
    Ok(Box::new(alloc, tree)?)
}

/// The last values, so many, as parts, the last first.
pub(crate) fn pop_parts(
    alloc: Global,
    values: &mut Vec<Value>,
    place: Place,
    count: usize,
) -> Result<Vec<Expr<Binder>>, AllocError>
    ensures top { IfOk result (λ parts. reverse (trees_in parts.items)
        ≡ last_trees place count (values_view values.old.items)) }
    ensures below { IfOk result (λ _. values_view values.new.items
        ≡ values_below count (values_view values.old.items)) }
{
    let mut parts = Vec::new(alloc);
    for _ in 0..count {
        parts.push(pop_part(values, place))?;
    }
    Ok(parts)
}

/// The last values, so many, as a row in their order.
pub(crate) fn pop_row(
    alloc: Global,
    values: &mut Vec<Value>,
    place: Place,
    count: usize,
) -> Result<Exprs<Binder>, AllocError>
    ensures top { IfOk result (λ row. trees_in (exprs_items Binder row)
        ≡ last_trees place count (values_view values.old.items)) }
    ensures below { IfOk result (λ _. values_view values.new.items
        ≡ values_below count (values_view values.old.items)) }
{
    let mut parts = pop_parts(alloc, values, place, count)?;
    let mut row = Exprs::new(alloc)?;
    while let Some(part) = parts.pop() {
        row.push(part)?;
    }
    Ok(row)
}

/// The last of these trees.
pub(crate) fn pop_body(bodies: &mut Vec<Expr<Binder>>, place: Place) -> Expr<Binder>
    ensures top { scoped_view result ≡ first_tree place (reverse (trees_in bodies.old.items)) }
    ensures below { reverse (trees_in bodies.new.items) ≡ rest_trees (reverse (trees_in bodies.old.items)) }
{
    match bodies.pop() {
        Some(body) => body,
        None => Expr {
            id: 0,
            place,
            node: Node::Unit,
        },
    }
}

/// The last number.
pub(crate) fn pop_start(starts: &mut Vec<u32>) -> u32
    ensures top { result ≡ first (reverse starts.old.items) }
    ensures below { reverse starts.new.items ≡ rest (reverse starts.old.items) }
{
    match starts.pop() {
        Some(start) => start,
        None => 0,
    }
}

/// The last numbers, so many, the last first.
pub(crate) fn pop_starts(
    alloc: Global,
    starts: &mut Vec<u32>,
    count: usize,
) -> Result<Vec<u32>, AllocError>
    ensures top { IfOk result (λ popped. reverse popped.items
        ≡ last_starts count (reverse starts.old.items)) }
    ensures below { IfOk result (λ _. reverse starts.new.items
        ≡ starts_below count (reverse starts.old.items)) }
{
    let mut popped = Vec::new(alloc);
    for _ in 0..count {
        popped.push(pop_start(starts))?;
    }
    Ok(popped)
}
