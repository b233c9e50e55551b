//! Normal trees: blocks of bindings before a last operation, over pure expressions.
#![tactic(auto)]

mod atom;
mod block;
mod convert;
mod dropping;
mod item;

pub use atom::{Atom, AtomNode, RingOp};
pub use block::{
    Binding, Block, Bound, Branch, Local, Operation, OperationNode, Quotient, Recursive,
};
pub use dropping::drop_definitions;
pub use item::{Definition, DefinitionNode};
