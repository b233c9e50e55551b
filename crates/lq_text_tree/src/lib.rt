//! The syntax trees of programs, qualifiers and measures, with the names and places of which they are made.
#![tactic(auto)]

mod copy;
mod depth;
mod dropping;
mod expr;
mod free_names;
mod item;
mod measures;
mod pattern;
mod pred_expr;
mod program;
mod quals;
mod rows;
mod simple_type;
mod type_expr;

pub use dropping::drop_items;
pub use expr::{Arguments, Arm, Arms, Expr, Exprs, Function, Node};
pub use item::{Constructor, Item, ItemNode, TypeDefinition, TypeParameter};
pub use lq_base_names::{
    ArithOp, Binder, CompareOp, Ident, Name, NameTable, NameText, Names, Place, TextBuf, TextKind,
};
pub use measures::{Equation, Measure, Measures};
pub use pattern::{Pat, PatNode, Pats};
pub use pred_expr::{PredExpr, PredNode};
pub use program::Program;
pub use quals::{Qualifier, Quals};
pub use simple_type::{Scheme, SimpleType, SimpleTypes};
pub use type_expr::{TypeExpr, TypeExprs, TypeNode};
