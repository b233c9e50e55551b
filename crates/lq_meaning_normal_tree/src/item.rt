// The items of a normal program.
use crate::block::{Block, Recursive};
use lq_base_names::{Binder, Place};
use lq_text_tree::Pat;

/// A definition of a program, with the place of its first token.
#[derive(Drop)]
pub struct Definition {
    pub place: Place,
    pub node: DefinitionNode,
}

#[derive(Drop)]
pub enum DefinitionNode {
    /// `let p = block`
    Value(Pat<Binder>, Block),
    /// `let rec f = fun x -> block`
    Function(Binder, Recursive),
}
