// Measures and qualifiers whose names are bound.
use crate::sorting::shape::Shape;
use lq_base_names::{ArithOp, CompareOp, Name, Place};

/// What a predicate or a term speaks of.
#[derive(Clone, Copy, Debug, PartialEq, Eq)]
pub enum Variable {
    /// The value of which a qualifier speaks.
    Value,
    /// A field of a constructor, in an equation of a measure. Fields are numbered from 0.
    Field(usize),
    /// A placeholder of a qualifier. They are numbered from 0 by first appearance.
    Placeholder(usize),
}

/// A term, which is a whole number. Lengths and measures are taken of variables alone, since nothing else is an array or of a datatype.
///
/// It is dropped by a loop down first parts, so the stack that this takes grows with the levels of the text alone.
#[derive(Debug)]
pub enum ScopedTerm {
    Whole(i128),
    Var(Variable),
    /// The length of an array.
    Length(Variable),
    /// The measure before which so many are defined, of a value of its datatype.
    Measure(usize, Variable),
    Arith(ArithOp, Box<ScopedTerm>, Box<ScopedTerm>),
    Neg(Box<ScopedTerm>),
}

impl Drop for ScopedTerm {
    fn drop(mut self) {
        loop {
            match self {
                ScopedTerm::Arith(_, first, _second) => self = Box::into_inner(first),
                ScopedTerm::Neg(part) => self = Box::into_inner(part),
                ScopedTerm::Whole(_)
                | ScopedTerm::Var(_)
                | ScopedTerm::Length(_)
                | ScopedTerm::Measure(_, _) => return,
            }
        }
    }
}

/// A predicate, which is a truth value.
///
/// It is dropped by a loop down first parts, so the stack that this takes grows with the levels of the text alone.
#[derive(Debug)]
pub enum ScopedPred {
    Flag(bool),
    /// The variable is true.
    Holds(Variable),
    Compare(CompareOp, ScopedTerm, ScopedTerm),
    Not(Box<ScopedPred>),
    And(Box<ScopedPred>, Box<ScopedPred>),
    Or(Box<ScopedPred>, Box<ScopedPred>),
    /// Both hold, or neither does.
    Iff(Box<ScopedPred>, Box<ScopedPred>),
}

impl Drop for ScopedPred {
    fn drop(mut self) {
        loop {
            match self {
                ScopedPred::And(first, _second)
                | ScopedPred::Or(first, _second)
                | ScopedPred::Iff(first, _second) => self = Box::into_inner(first),
                ScopedPred::Not(part) => self = Box::into_inner(part),
                ScopedPred::Compare(_, _first, _second) => return,
                ScopedPred::Flag(_) | ScopedPred::Holds(_) => return,
            }
        }
    }
}

/// A qualifier whose names are bound.
#[derive(Debug, Drop)]
pub struct ScopedQualifier {
    pub name: Name,
    pub place: Place,
    /// What the value is.
    pub shape: Shape,
    /// What the placeholders are, in the order of their numbers.
    pub placeholders: Vec<Shape>,
    pub predicate: ScopedPred,
}

/// A measure whose names are bound.
#[derive(Debug, Drop)]
pub struct ScopedMeasure {
    pub name: Name,
    pub datatype: Name,
    /// What it is of a value of each constructor of the datatype, in the order of the datatype's definition.
    pub terms: Vec<ScopedTerm>,
}
