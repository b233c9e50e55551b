// The names in a predicate, and the kinds of what they stand for.
use lq_base_names::{Binder, Name};

/// A name in a predicate.
#[derive(Clone, Copy, Debug, PartialEq, Eq, PartialOrd, Ord, Hash)]
pub enum Symbol {
    /// The value that a refinement speaks of.
    Value,
    /// A variable of the program.
    Bound(Binder),
    /// A component of a tuple or a field of a constructor, counted from 1.
    Position(u32),
}

/// What kind of value a term or a symbol stands for.
#[derive(Clone, Copy, Debug, PartialEq, Eq, Hash)]
pub enum Sort {
    /// A whole number.
    Int,
    /// A truth value.
    Bool,
    /// An array or a value of a datatype.
    Object,
}

/// What a qualifier or an unknown may speak of.
#[derive(Clone, Copy, Debug, PartialEq, Eq, Hash)]
pub enum Shape {
    /// A whole number.
    Int,
    /// A truth value.
    Bool,
    /// The one value of the unit type.
    Unit,
    /// An array.
    Array,
    /// A datatype.
    Named(Name),
    /// A function, a tuple or a type variable.
    Other,
}
