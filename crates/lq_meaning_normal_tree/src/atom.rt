// Pure expressions.
use lq_base_names::{Binder, CompareOp, Place};

/// A sum, a difference or a product.
#[derive(Clone, Copy, Debug, PartialEq, Eq)]
pub enum RingOp {
    Add,
    Sub,
    Mul,
}

/// A pure expression: a node with its number and place. It calls nothing, and neither reads, writes nor fails.
#[cycle(atom)]
#[derive(Drop)]
pub struct Atom {
    pub id: u32,
    pub place: Place,
    pub node: AtomNode,
}

/// The form of a pure expression, whose parts are pure too.
#[cycle(atom)]
#[derive(Drop)]
pub enum AtomNode {
    Whole(i128),
    Flag(bool),
    Unit,
    Use(Binder),
    Ring(RingOp, Box<Atom>, Box<Atom>),
    Neg(Box<Atom>),
    Compare(CompareOp, Box<Atom>, Box<Atom>),
    Not(Box<Atom>),
    And(Box<Atom>, Box<Atom>),
    Or(Box<Atom>, Box<Atom>),
    /// `Array.length a`
    Length(Box<Atom>),
}
