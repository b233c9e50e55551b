// Blocks of bindings and a last operation.
use crate::atom::{Atom, AtomNode};
use lq_base_names::{Binder, Name, Place};
use lq_text_tree::{Arguments, Pat};

/// A variable where it stands for a pattern, or where a match looks at it: its binder with a place.
#[derive(Clone, Copy, Debug, PartialEq, Eq)]
pub struct Local {
    pub place: Place,
    pub binder: Binder,
}

/// A quotient that truncates, or its remainder. Both fail where the divisor is zero.
#[derive(Clone, Copy, Debug, PartialEq, Eq)]
pub enum Quotient {
    Div,
    Mod,
}

/// Bindings in order, and the operation that gives the block's value.
#[cycle(block)]
#[derive(Drop)]
pub struct Block {
    pub bindings: Vec<Binding>,
    pub last: Operation,
}

/// What a block binds, with the number and the place of its node.
#[cycle(block)]
#[derive(Drop)]
pub struct Binding {
    pub id: u32,
    pub place: Place,
    pub bound: Bound,
}

#[cycle(block)]
#[derive(Drop)]
pub enum Bound {
    /// `let x = operation in`
    Value(Local, Operation),
    /// `let rec f = fun x -> block in`
    Function(Binder, Recursive),
}

/// The function of a recursive definition: a node with its number and place, which takes a parameter and has a body.
#[cycle(block)]
#[derive(Drop)]
pub struct Recursive {
    pub id: u32,
    pub place: Place,
    pub parameter: Local,
    pub body: Box<Block>,
}

/// A node of a block with its number and place, all of whose operands are pure.
#[cycle(block)]
#[derive(Drop)]
pub struct Operation {
    pub id: u32,
    pub place: Place,
    pub node: OperationNode,
}

/// The form of an operation. Each variant holds the parts of its form in the order of the text.
#[cycle(block)]
#[derive(Drop)]
pub enum OperationNode {
    /// A pure expression, whose number and place are those of the operation.
    Pure(AtomNode),
    Fun(Local, Box<Block>),
    Tuple(Vec<Atom>),
    Build(Name, Arguments, Vec<Atom>),
    Call(Atom, Atom),
    Divide(Quotient, Atom, Atom),
    If(Atom, Box<Block>, Box<Block>),
    /// A match on a variable, with the number of the variable's node.
    Match(u32, Local, Vec<Branch>),
    Assert(Atom),
    AssertFalse,
    /// `Array.make n e`
    Make(Atom, Atom),
    /// `a.(i)`
    Fetch(Atom, Atom),
    /// `a.(i) <- e`
    Store(Atom, Atom, Atom),
    /// `print_int n`
    Print(Atom),
    /// `read_int u`
    Read(Atom),
    MapEmpty,
    /// `Map.add k e m`
    MapAdd(Atom, Atom, Atom),
    /// `Map.find k m`
    MapFind(Atom, Atom),
}

/// An arm of a match.
#[cycle(block)]
#[derive(Drop)]
pub struct Branch {
    pub pattern: Pat<Binder>,
    pub body: Block,
}
