// What a term begins with.
use lq_base_names::Name;
use lq_logic_predicates::Symbol;

/// What a term begins with. A symbol has no arguments.
#[derive(Clone, Copy, Debug, PartialEq, Eq, Hash)]
pub enum Head {
    /// A name.
    Symbol(Symbol),
    /// The length of an array.
    Length,
    /// The measure of this name.
    Measure(Name),
}
