// Operations whose result is past 128 bits.
use crate::fractions::frac::Frac;
use thiserror::Error;

/// An operation on fractions.
#[derive(Clone, Copy, Debug, PartialEq, Eq)]
pub enum NumOp {
    Add,
    Sub,
    Mul,
    Div,
    Neg,
}

/// An operation whose result has no form within 128 bits, with its operands. `Neg` has its one operand on both sides.
#[derive(Clone, Copy, Debug, PartialEq, Eq, Error)]
#[error("the result of an operation on fractions is past 128 bits")]
pub struct NumberPast {
    pub left: Frac,
    pub right: Frac,
    pub op: NumOp,
}
