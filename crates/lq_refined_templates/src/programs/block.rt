// Operations, blocks and the items of a program.
use crate::programs::pure::{Pure, Use};
use lq_base_names::{Binder, Name, Place};

/// The pattern of an arm: `_`, a name, `()`, names for the components of a tuple, and names for the fields of a constructor.
#[derive(Drop)]
pub enum Pattern {
    Any,
    Name(Binder),
    Unit,
    Tuple(Vec<Binder>),
    Build(Name, Vec<Binder>),
}

/// A quotient that truncates, or its remainder.
#[derive(Clone, Copy, Debug, PartialEq, Eq)]
pub enum Quotient {
    Div,
    Mod,
}

/// An operation over pure operands. A number of a point comes first, where a rule takes a template there.
#[cycle(block)]
#[derive(Drop)]
pub enum Operation {
    Pure(Pure),
    /// A function of a parameter.
    Fun(usize, Binder, Box<Block>),
    If(usize, Pure, Box<Block>, Box<Block>),
    /// A match on a variable.
    Match(usize, Use, Vec<Arm>),
    Call(Pure, Pure),
    Tuple(Vec<Pure>),
    Build(usize, Name, Vec<Pure>),
    /// `Array.make n e`
    Make(usize, Pure, Pure),
    /// `a.(i)`
    Fetch(Use, Pure),
    /// `a.(i) <- e`
    Store(Use, Pure, Pure),
    Divide(Quotient, Pure, Pure),
    Assert(Pure),
    AssertFalse(usize),
    Read(Pure),
    Print(Pure),
    MapEmpty(usize),
    /// `Map.add k e m`
    MapAdd(usize, Pure, Pure, Pure),
    /// `Map.find k m`
    MapFind(Pure, Pure),
}

/// Bindings in order, and the operation that gives the block's value, with its place.
#[cycle(block)]
#[derive(Drop)]
pub struct Block {
    pub bindings: Vec<Binding>,
    pub place: Place,
    pub last: Operation,
}

/// What a block binds.
#[cycle(block)]
#[derive(Drop)]
pub enum Binding {
    /// `let x = operation in`, with the operation's place.
    Value(Binder, Place, Operation),
    /// `let rec f = fun y -> body in`: f, its point, y and the body.
    Function(Binder, usize, Binder, Box<Block>),
}

/// An arm of a match.
#[cycle(block)]
#[derive(Drop)]
pub struct Arm {
    pub pattern: Pattern,
    pub body: Block,
}

/// A definition of a program.
#[derive(Drop)]
pub enum Item {
    /// `let x = block`: x, its place and its point.
    Define(Binder, Place, usize, Block),
    /// `let rec f = fun y -> body`: f, its point, y and the body.
    DefineFunction(Binder, usize, Binder, Block),
    /// `let () = block`
    RunUnit(Block),
    /// `let _ = block`
    RunAny(Block),
}
