// What an expression became, and the nodes that are made of it.
ghost use Rattle.std.specs.Prelude.{◌≡◌, false, IfOk};
ghost use Rattle.lq_meaning_normal_tree.specs.AtomView.{atom_view, atom_node_view, operator_of};
ghost use Rattle.lq_meaning_normal_tree.specs.BlockView.{block_view, operation_view, operation_node_view, quotient_of};
ghost use Rattle.lq_base_names.specs.declared.name.Binder.{Binder};
ghost use Rattle.lq_text_tree.specs.Tree.{tree, arithmetic};
ghost use Rattle.lq_text_walk.specs.Walk.View.{leaf_view, one_view, two_view, three_view};
ghost use Rattle.lq_meaning_normalize.specs.Pass.Forming as formed;
ghost use Rattle.lq_meaning_normalize.specs.Pass.Forming.{arithmetic_node, is_choice, is_connective, one_node, two_node, three_node};
ghost use Rattle.lq_meaning_normalize.specs.Pass.Views.{shown, last_view, is_pure_normal};

use crate::pass::blocks::choice_node;
use crate::pass::value::Normal;
use lq_base_names::{ArithOp, Binder, Place};
use lq_meaning_normal_tree::{Atom, AtomNode, Block, Operation, OperationNode, Quotient, RingOp};
use lq_text_walk::walk::{Leaf, One, Three, Two};
use std::alloc::{AllocError, Global};

impl Normal {
    /// A pure expression.
    pub fn atom(id: u32, place: Place, pure: bool, node: AtomNode) -> Normal
        ensures { shown result ≡ formed.stands_as pure (tree id place (atom_node_view node)) }
    {
        Normal::Atom(Atom { id, place, node }, pure)
    }

    /// Another operation.
    pub fn operation(id: u32, place: Place, node: OperationNode) -> Normal
        ensures { shown result ≡ formed.operates_as (tree id place (operation_node_view node)) }
    {
        Normal::Operation(Operation { id, place, node })
    }

    /// A node without parts. A name with a dot stands in no scoped program; what stands for it fails.
    pub fn leaf(id: u32, place: Place, leaf: Leaf<Binder>) -> Normal
        ensures { shown result ≡ formed.leaf id place (leaf_view Binder (λ b. b.0) leaf) }
    {
        match leaf {
            Leaf::Whole(n) => Normal::atom(id, place, true, AtomNode::Whole(n)),
            Leaf::Flag(b) => Normal::atom(id, place, true, AtomNode::Flag(b)),
            Leaf::Unit => Normal::atom(id, place, true, AtomNode::Unit),
            Leaf::Use(x) => Normal::atom(id, place, true, AtomNode::Use(x)),
            Leaf::Qualified(_, _) | Leaf::AssertFalse => {
                Normal::operation(id, place, OperationNode::AssertFalse)
            }
            Leaf::MapEmpty => Normal::operation(id, place, OperationNode::MapEmpty),
        }
    }

    /// Whether the expression is pure as it is written.
    pub fn is_pure(&self) -> bool
        ensures { result ≡ is_pure_normal self.now }
    {
        match self {
            Normal::Atom(_, pure) => *pure,
            Normal::Operation(_) => false,
        }
    }

    /// The operation that it is.
    pub fn into_operation(self) -> Operation
        ensures { operation_view result ≡ last_view self }
    {
        match self {
            Normal::Atom(atom, _) => atom.into_operation(),
            Normal::Operation(operation) => operation,
        }
    }
}

fn ring(
    alloc: Global,
    id: u32,
    place: Place,
    op: RingOp,
    pure: bool,
    left: Atom,
    right: Atom,
) -> Result<Normal, AllocError>
    ensures { IfOk result (λ n. shown n ≡ formed.stands_as pure (tree id place (arithmetic (operator_of op) (atom_view left) (atom_view right)))) }
{
    let (left, right) = both_boxed(alloc, left, right)?;
    Ok(Normal::atom(id, place, pure, AtomNode::Ring(op, left, right)))
}

/// An arithmetic operation on operands, of which it is said whether they are pure as they are written.
pub fn arithmetic(
    alloc: Global,
    id: u32,
    place: Place,
    op: ArithOp,
    pure: bool,
    left: Atom,
    right: Atom,
) -> Result<Normal, AllocError>
    ensures { IfOk result (λ n. shown n ≡ arithmetic_node op id place pure (atom_view left) (atom_view right)) }
{
    match op {
        ArithOp::Add => ring(alloc, id, place, RingOp::Add, pure, left, right),
        ArithOp::Sub => ring(alloc, id, place, RingOp::Sub, pure, left, right),
        ArithOp::Mul => ring(alloc, id, place, RingOp::Mul, pure, left, right),
        ArithOp::Div => Ok(divide(id, place, Quotient::Div, left, right)),
        ArithOp::Mod => Ok(divide(id, place, Quotient::Mod, left, right)),
    }
}

fn divide(id: u32, place: Place, quotient: Quotient, left: Atom, right: Atom) -> Normal
    ensures { shown result ≡ formed.operates_as (tree id place (arithmetic (quotient_of quotient) (atom_view left) (atom_view right))) }
{
    Normal::operation(id, place, OperationNode::Divide(quotient, left, right))
}

/// A node over one operand.
pub fn one_node(
    alloc: Global,
    id: u32,
    place: Place,
    head: One,
    pure: bool,
    part: Atom,
) -> Result<Normal, AllocError>
    ensures { IfOk result (λ n. shown n ≡ one_node (one_view head) id place pure (atom_view part)) }
{
    Ok(match head {
        One::Neg => Normal::atom(id, place, pure, AtomNode::Neg(Box::new(alloc, part)?)),
        One::Not => Normal::atom(id, place, pure, AtomNode::Not(Box::new(alloc, part)?)),
        One::Length => Normal::atom(id, place, pure, AtomNode::Length(Box::new(alloc, part)?)),
        One::Assert => Normal::operation(id, place, OperationNode::Assert(part)),
        One::Print => Normal::operation(id, place, OperationNode::Print(part)),
        One::Read => Normal::operation(id, place, OperationNode::Read(part)),
    })
}

/// A node over two operands.
pub fn two_node(
    alloc: Global,
    id: u32,
    place: Place,
    head: Two,
    pure: bool,
    left: Atom,
    right: Atom,
) -> Result<Normal, AllocError>
    ensures { IfOk result (λ n. shown n ≡ two_node (two_view head) id place pure (atom_view left) (atom_view right)) }
{
    Ok(match head {
        Two::Arith(op) => return arithmetic(alloc, id, place, op, pure, left, right),
        Two::Compare(op) => {
            let (left, right) = both_boxed(alloc, left, right)?;
            Normal::atom(id, place, pure, AtomNode::Compare(op, left, right))
        }
        Two::And => {
            let (left, right) = both_boxed(alloc, left, right)?;
            Normal::atom(id, place, pure, AtomNode::And(left, right))
        }
        Two::Or => {
            let (left, right) = both_boxed(alloc, left, right)?;
            Normal::atom(id, place, pure, AtomNode::Or(left, right))
        }
        Two::Call => Normal::operation(id, place, OperationNode::Call(left, right)),
        Two::Make => Normal::operation(id, place, OperationNode::Make(left, right)),
        Two::Fetch => Normal::operation(id, place, OperationNode::Fetch(left, right)),
        Two::MapFind => Normal::operation(id, place, OperationNode::MapFind(left, right)),
    })
}

fn both_boxed(alloc: Global, left: Atom, right: Atom) -> Result<(Box<Atom>, Box<Atom>), AllocError>
    ensures left { IfOk result (λ r. atom_view r.0.value ≡ atom_view left) }
    ensures right { IfOk result (λ r. atom_view r.1.value ≡ atom_view right) }
{
    let left = Box::new(alloc, left)?;
    let right = Box::new(alloc, right)?;
    Ok((left, right))
}

// A block of a pure expression alone.
fn alone(alloc: Global, atom: Atom) -> Result<Box<Block>, AllocError>
    ensures { IfOk result (λ b. block_view b.value ≡ atom_view atom) }
{
    let last = atom.into_operation();
    let bindings = Vec::new(alloc);
    Ok(Box::new(alloc, Block { bindings, last })?)
}

/// A node over three operands: an `if` among them, whose branches are pure.
pub fn three_node(
    alloc: Global,
    id: u32,
    place: Place,
    head: Three,
    a: Atom,
    b: Atom,
    c: Atom,
) -> Result<Normal, AllocError>
    ensures { IfOk result (λ n. shown n ≡ three_node (three_view head) id place (atom_view a) (atom_view b) (atom_view c)) }
{
    match head {
        Three::MapAdd => Ok(Normal::operation(id, place, OperationNode::MapAdd(a, b, c))),
        Three::Store => Ok(Normal::operation(id, place, OperationNode::Store(a, b, c))),
        Three::If => {
            let then = alone(alloc, b)?;
            let otherwise = alone(alloc, c)?;
            Ok(choice_node(id, place, a, then, otherwise))
        }
    }
}

/// Whether a head is `if`.
pub fn is_choice(head: Three) -> bool
    ensures { result ≡ is_choice (three_view head) }
{
    match head {
        Three::If => true,
        Three::Store | Three::MapAdd => false,
    }
}

/// Whether a head is `&&` or `||`.
pub fn is_connective(head: Two) -> bool
    ensures { result ≡ is_connective (two_view head) }
{
    match head {
        Two::And | Two::Or => true,
        Two::Call | Two::Arith(_) | Two::Compare(_) | Two::Make | Two::Fetch | Two::MapFind =>
            false,
    }
}
