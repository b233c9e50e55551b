// Nodes seen by their shape.
ghost use Rattle.std.specs.Prelude.{◌≡◌};
ghost use Rattle.lq_text_tree.specs.TreeView.{form_view};
ghost use Rattle.lq_text_walk.specs.Walk.Shape.{shape_of};
ghost use Rattle.lq_text_walk.specs.Walk.View.{shape_view};

use lq_base_names::{ArithOp, CompareOp, Ident, Name};
use lq_text_tree::{Arguments, Arms, Expr, Exprs, Function, Node, Pat};

/// What a node without parts is.
#[derive(Clone, Copy, Debug, PartialEq, Eq)]
pub enum Leaf<B> {
    Whole(i128),
    Flag(bool),
    Unit,
    Use(B),
    Qualified(Name, Name),
    AssertFalse,
    MapEmpty,
}

/// What a node does with one part.
#[derive(Clone, Copy, Debug, PartialEq, Eq)]
pub enum One {
    Neg,
    Not,
    Assert,
    Length,
    Print,
    Read,
}

/// What a node does with two parts.
#[derive(Clone, Copy, Debug, PartialEq, Eq)]
pub enum Two {
    Call,
    Arith(ArithOp),
    Compare(CompareOp),
    And,
    Or,
    Make,
    Fetch,
    MapFind,
}

/// What a node does with three parts.
#[derive(Clone, Copy, Debug, PartialEq, Eq)]
pub enum Three {
    If,
    Store,
    MapAdd,
}

/// What a node does with a row of parts.
#[derive(Clone, Copy, Debug, PartialEq, Eq)]
pub enum Row {
    Tuple,
    Build(Name, Arguments),
    ListOf,
    Chain,
}

/// A node as a head with its parts, each in the order of the text. What is said or done for each form of a node is said or
/// done for nine shapes.
#[derive(Clone, Copy)]
pub enum Shape<'a, B> {
    Leaf(Leaf<B>),
    One(One, &'a Expr<B>),
    Two(Two, &'a Expr<B>, &'a Expr<B>),
    Three(Three, &'a Expr<B>, &'a Expr<B>, &'a Expr<B>),
    Row(Row, &'a Exprs<B>),
    Fun(&'a Pat<B>, &'a Expr<B>),
    Let(&'a Pat<B>, &'a Expr<B>, &'a Expr<B>),
    LetRec(&'a B, &'a Function<B>, &'a Expr<B>),
    Match(&'a Expr<B>, &'a Arms<B>),
}

/// The shape of a node.
pub fn shape_of<B: Ident>(node: &Node<B>) -> Shape<'_, B>
    ensures { shape_view B B.number result ≡ shape_of (form_view B B.number node.now) }
{
    match node {
        Node::Whole(n) => Shape::Leaf(Leaf::Whole(*n)),
        Node::Flag(b) => Shape::Leaf(Leaf::Flag(*b)),
        Node::Unit => Shape::Leaf(Leaf::Unit),
        Node::Use(x) => Shape::Leaf(Leaf::Use(*x)),
        Node::Qualified(m, x) => Shape::Leaf(Leaf::Qualified(*m, *x)),
        Node::Fun(p, b) => Shape::Fun(p, b),
        Node::Tuple(parts) => Shape::Row(Row::Tuple, parts),
        Node::Build(c, held, parts) => Shape::Row(Row::Build(*c, *held), parts),
        Node::ListOf(items) => Shape::Row(Row::ListOf, items),
        Node::Let(p, e, b) => Shape::Let(p, e, b),
        Node::LetRec(f, r, b) => Shape::LetRec(f, r, b),
        Node::Call(a, b) => Shape::Two(Two::Call, a, b),
        Node::Arith(op, a, b) => Shape::Two(Two::Arith(*op), a, b),
        Node::Neg(e) => Shape::One(One::Neg, e),
        Node::Compare(op, a, b) => Shape::Two(Two::Compare(*op), a, b),
        Node::Not(e) => Shape::One(One::Not, e),
        Node::And(a, b) => Shape::Two(Two::And, a, b),
        Node::Or(a, b) => Shape::Two(Two::Or, a, b),
        Node::If(c, a, b) => Shape::Three(Three::If, c, a, b),
        Node::Match(e, arms) => Shape::Match(e, arms),
        Node::Chain(parts) => Shape::Row(Row::Chain, parts),
        Node::Assert(e) => Shape::One(One::Assert, e),
        Node::AssertFalse => Shape::Leaf(Leaf::AssertFalse),
        Node::Make(n, e) => Shape::Two(Two::Make, n, e),
        Node::Length(a) => Shape::One(One::Length, a),
        Node::Fetch(a, i) => Shape::Two(Two::Fetch, a, i),
        Node::Store(a, i, e) => Shape::Three(Three::Store, a, i, e),
        Node::Print(e) => Shape::One(One::Print, e),
        Node::Read(e) => Shape::One(One::Read, e),
        Node::MapEmpty => Shape::Leaf(Leaf::MapEmpty),
        Node::MapAdd(k, e, m) => Shape::Three(Three::MapAdd, k, e, m),
        Node::MapFind(k, m) => Shape::Two(Two::MapFind, k, m),
    }
}
