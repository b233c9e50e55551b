// The items of a program.
use crate::expr::{Expr, Function};
use crate::pattern::Pat;
use crate::type_expr::TypeExprs;
use lq_base_names::{Name, Place};

/// An item of a program, with the place of its first token.
#[derive(Drop)]
pub struct Item<B> {
    pub place: Place,
    pub node: ItemNode<B>,
}

#[derive(Drop)]
pub enum ItemNode<B> {
    Type(TypeDefinition),
    Let(Pat<B>, Expr<B>),
    LetRec(B, Function<B>),
}

/// A definition of a datatype, with the place of its name.
#[derive(Drop)]
pub struct TypeDefinition {
    pub name: Name,
    pub place: Place,
    pub parameters: Vec<TypeParameter>,
    pub constructors: Vec<Constructor>,
}

/// A parameter of a datatype, with its place.
#[derive(Clone, Copy, Debug, PartialEq, Eq)]
pub struct TypeParameter {
    pub name: Name,
    pub place: Place,
}

/// A constructor with its place and the types of its fields.
#[derive(Drop)]
pub struct Constructor {
    pub name: Name,
    pub place: Place,
    pub fields: TypeExprs,
}
