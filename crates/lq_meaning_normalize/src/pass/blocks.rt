// Operations that have blocks, and list literals.
ghost use Rattle.std.specs.Prelude.{◌≡◌, Some, IfOk};
ghost use Rattle.lq_meaning_normal_tree.specs.AtomView.{atom_view};
ghost use Rattle.lq_meaning_normal_tree.specs.BlockView.{operation_view, block_view};
ghost use Rattle.lq_text_tree.specs.Tree.{tree, flag, if_else, build, more_trees, no_trees};
ghost use Rattle.lq_text_tree.specs.declared.expr.Arguments.TheVariants.{Apart};
ghost use Rattle.lq_text_walk.specs.Walk.View.{two_view};
ghost use Rattle.lq_meaning_normalize.specs.Pass.Forming.{operates_as, choice_of, literal};
ghost use Rattle.lq_meaning_normalize.specs.Pass.Views.{shown, settled_as, row_of, under_view, GoesOn};

use crate::pass::making::Pass;
use crate::pass::value::Normal;
use lq_base_names::{Binder, Name, Place};
use lq_meaning_normal_tree::{Atom, AtomNode, Block, Branch, Local, Operation, OperationNode};
use lq_text_tree::{Arguments, Pat};
use lq_text_walk::walk::Two;
use std::alloc::{AllocError, Global};

// A flag as a block.
fn constant(alloc: Global, id: u32, place: Place, on: bool) -> Block
    ensures { block_view result ≡ tree id place (flag on) }
{
    let node = OperationNode::Pure(AtomNode::Flag(on));
    Block {
        bindings: Vec::new(alloc),
        last: Operation { id, place, node },
    }
}

// An `if` of a condition and two blocks.
pub(crate) fn choice_node(
    id: u32,
    place: Place,
    condition: Atom,
    then: Box<Block>,
    otherwise: Box<Block>,
) -> Normal
    ensures { shown result ≡ operates_as (tree id place
        (if_else (atom_view condition) (block_view then.value) (block_view otherwise.value))) }
{
    Normal::operation(id, place, OperationNode::If(condition, then, otherwise))
}

/// `a && b` is `if a then b else false`, and `a || b` is `if a then true else b`.
pub fn choice_of(
    alloc: Global,
    id: u32,
    place: Place,
    head: Two,
    condition: Atom,
    second: Block,
) -> Result<Normal, AllocError>
    ensures { IfOk result (λ n. shown n ≡ operates_as (tree id place
        (choice_of (two_view head) id place (atom_view condition) (block_view second)))) }
{
    let second = Box::new(alloc, second)?;
    match head {
        Two::And => {
            let otherwise = Box::new(alloc, constant(alloc, id, place, false))?;
            Ok(choice_node(id, place, condition, second, otherwise))
        }
        Two::Or
        | Two::Call
        | Two::Arith(_)
        | Two::Compare(_)
        | Two::Make
        | Two::Fetch
        | Two::MapFind => {
            let then = Box::new(alloc, constant(alloc, id, place, true))?;
            Ok(choice_node(id, place, condition, then, second))
        }
    }
}

/// A body that matches its parameter with a pattern.
pub fn matched(
    alloc: Global,
    local: Local,
    pattern: Pat<Binder>,
    body: Block,
) -> Result<Operation, AllocError>
    ensures { IfOk result (λ o. operation_view o ≡ under_view local (Some pattern) (block_view body)) }
{
    let branches = Vec::from_array(alloc, [Branch { pattern, body }])?;
    Ok(Operation {
        id: 0,
        place: local.place,
        node: OperationNode::Match(0, local, branches),
    })
}

// A cell of a list.
fn cell_node(
    alloc: Global,
    id: u32,
    place: Place,
    item: Atom,
    tail: Atom,
) -> Result<Operation, AllocError>
    ensures { IfOk result (λ o. operation_view o ≡ tree id place
        (build 8 Apart (more_trees (atom_view item) (more_trees (atom_view tail) no_trees)))) }
{
    let parts = Vec::from_array(alloc, [item, tail])?;
    let node = OperationNode::Build(Name::CONS, Arguments::Apart, parts);
    Ok(Operation { id, place, node })
}

impl Pass {
    /// A list literal: from the last item on, each tail is bound.
    #[tactic(auto, using(crate::specs::Pass::Going::going))]
    pub fn literal(
        &mut self,
        id: u32,
        place: Place,
        mut items: Vec<Atom>,
    ) -> Result<Operation, AllocError>
        ensures literal { IfOk result (λ o. settled_as self.new o ≡ literal id place (row_of self.old items.items)) }
        ensures goes_on { GoesOn self.old self.new }
    {
        let node = OperationNode::Build(Name::NIL, Arguments::Apart, Vec::new(self.alloc));
        let mut list = Operation { id, place, node };
        while let Some(item) = items.pop() {
            let tail = self.name(id, place, list)?;
            list = cell_node(self.alloc, id, place, item, tail)?;
        }
        Ok(list)
    }
}
