// Expressions.
use crate::pattern::Pat;
use lq_base_names::{ArithOp, CompareOp, Name, Place};

/// An expression: a node of a tree, with its number and the place of its first token.
/// Parentheses around a node don't belong to it.
#[cycle(tree)]
#[derive(Drop)]
pub struct Expr<B> {
    pub id: u32,
    pub place: Place,
    pub node: Node<B>,
}

/// The form of an expression. Each variant holds the parts of its form in the order of the text.
///
/// A parsed tree calls the primitives by `Call`. A scoped tree has `Make` and the variants behind it in their place, and no
/// `Qualified`.
#[cycle(tree)]
#[derive(Drop)]
pub enum Node<B> {
    Whole(i128),
    Flag(bool),
    Unit,
    Use(B),
    /// An upper name, a dot and a lower name, as `Array.length`.
    Qualified(Name, Name),
    Fun(Box<Pat<B>>, Box<Expr<B>>),
    Tuple(Exprs<B>),
    /// A constructor with its arguments, of which a parsed tree has at most one.
    Build(Name, Arguments, Exprs<B>),
    ListOf(Exprs<B>),
    Let(Box<Pat<B>>, Box<Expr<B>>, Box<Expr<B>>),
    LetRec(B, Box<Function<B>>, Box<Expr<B>>),
    Call(Box<Expr<B>>, Box<Expr<B>>),
    Arith(ArithOp, Box<Expr<B>>, Box<Expr<B>>),
    Neg(Box<Expr<B>>),
    Compare(CompareOp, Box<Expr<B>>, Box<Expr<B>>),
    Not(Box<Expr<B>>),
    And(Box<Expr<B>>, Box<Expr<B>>),
    Or(Box<Expr<B>>, Box<Expr<B>>),
    If(Box<Expr<B>>, Box<Expr<B>>, Box<Expr<B>>),
    Match(Box<Expr<B>>, Arms<B>),
    /// Expressions parted by semicolons.
    Chain(Exprs<B>),
    Assert(Box<Expr<B>>),
    AssertFalse,
    /// `Array.make n e`
    Make(Box<Expr<B>>, Box<Expr<B>>),
    /// `Array.length a`
    Length(Box<Expr<B>>),
    /// `a.(i)`
    Fetch(Box<Expr<B>>, Box<Expr<B>>),
    /// `a.(i) <- e`
    Store(Box<Expr<B>>, Box<Expr<B>>, Box<Expr<B>>),
    /// `print_int n`
    Print(Box<Expr<B>>),
    /// `read_int u`
    Read(Box<Expr<B>>),
    MapEmpty,
    /// `Map.add k e m`
    MapAdd(Box<Expr<B>>, Box<Expr<B>>, Box<Expr<B>>),
    /// `Map.find k m`
    MapFind(Box<Expr<B>>, Box<Expr<B>>),
}

/// How the arguments of a constructor are held.
#[derive(Clone, Copy, Debug, PartialEq, Eq)]
pub enum Arguments {
    /// Each argument is a part of the node.
    Apart,
    /// The one part is a tuple whose commas stand directly in the parentheses behind the constructor, as in `C (1, 2)`. Where the
    /// constructor has two fields or more, each part of the tuple is an argument.
    Listed,
}

/// The function of a recursive definition: a node with its number and place, which takes a parameter and has a body.
#[cycle(tree)]
#[derive(Drop)]
pub struct Function<B> {
    pub id: u32,
    pub place: Place,
    pub parameter: Pat<B>,
    pub body: Box<Expr<B>>,
}

/// Expressions in a row.
#[cycle(tree)]
#[derive(Drop)]
pub struct Exprs<B> {
    pub(crate) items: Vec<Expr<B>>,
}

/// An arm of a match.
#[cycle(tree)]
#[derive(Drop)]
pub struct Arm<B> {
    pub pattern: Pat<B>,
    pub body: Box<Expr<B>>,
}

/// The arms of a match, in order.
#[cycle(tree)]
#[derive(Drop)]
pub struct Arms<B> {
    pub(crate) items: Vec<Arm<B>>,
}
