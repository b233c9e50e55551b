// Predicates as they are written.

use lq_base_names::{ArithOp, CompareOp, Name, Place};
/// A predicate or a term of a qualifier or a measure as it is written, with the place of its first token. Parentheses around it
/// don't belong to it.
#[cycle(pred_expr)]
#[derive(Drop)]
pub struct PredExpr {
    pub place: Place,
    pub node: PredNode,
}

#[cycle(pred_expr)]
#[derive(Drop)]
pub enum PredNode {
    Flag(bool),
    Whole(i128),
    Use(Name),
    /// An upper name.
    Placeholder(Name),
    /// A measure and its argument.
    Apply(Name, Box<PredExpr>),
    /// An upper name, a dot and a lower name with an argument, as `Array.length a`.
    Qualified(Name, Name, Box<PredExpr>),
    Arith(ArithOp, Box<PredExpr>, Box<PredExpr>),
    Neg(Box<PredExpr>),
    Compare(CompareOp, Box<PredExpr>, Box<PredExpr>),
    Not(Box<PredExpr>),
    And(Box<PredExpr>, Box<PredExpr>),
    Or(Box<PredExpr>, Box<PredExpr>),
    /// `p <=> q`
    Iff(Box<PredExpr>, Box<PredExpr>),
}
