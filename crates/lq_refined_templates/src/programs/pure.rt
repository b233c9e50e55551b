// Pure expressions.
use lq_base_names::{Binder, CompareOp};

/// A use of a name. Where the name is a generalised one, it has the number of the point that gives types for the name's type variables.
#[derive(Clone, Copy, Debug, PartialEq, Eq)]
pub struct Use {
    pub name: Binder,
    pub type_arguments: Option<usize>,
}

/// A sum, a difference or a product.
#[derive(Clone, Copy, Debug, PartialEq, Eq)]
pub enum RingOp {
    Add,
    Sub,
    Mul,
}

/// A pure expression: it calls nothing, and neither reads, writes nor fails.
#[cycle(pure)]
#[derive(Drop)]
pub enum Pure {
    Whole(i128),
    Flag(bool),
    Unit,
    Use(Use),
    Neg(Box<Pure>),
    Ring(RingOp, Box<Pure>, Box<Pure>),
    /// `Array.length a`
    Length(Box<Pure>),
    Compare(CompareOp, Box<Pure>, Box<Pure>),
    Not(Box<Pure>),
    And(Box<Pure>, Box<Pure>),
    Or(Box<Pure>, Box<Pure>),
}
