// Types as they are written.
ghost use Rattle.std.specs.Prelude.{◌≡◌, [], ◌∷◌, ◌++◌, length, slice_get, option_copied, IsOkAnd, OnOk, OnErr};
ghost use Rattle.lq_text_tree.specs.TypeView.{type_exprs_items};

use lq_base_names::{Name, Place};
use std::alloc::{AllocError, Global};

/// A type as it is written, with the place of its first token. Parentheses around it don't belong to it.
#[cycle(type_expr)]
#[derive(Drop)]
pub struct TypeExpr {
    pub place: Place,
    pub node: TypeNode,
}

#[cycle(type_expr)]
#[derive(Drop)]
pub enum TypeNode {
    Var(Name),
    /// Arguments, the name of a type behind them, and the place of that name.
    Apply(TypeExprs, Name, Place),
    Tuple(TypeExprs),
    Arrow(Box<TypeExpr>, Box<TypeExpr>),
}

/// Types in a row.
#[cycle(type_expr)]
#[derive(Drop)]
pub struct TypeExprs {
    items: Vec<TypeExpr>,
}

impl TypeExprs {
    pub fn new(alloc: Global) -> Result<TypeExprs, AllocError>
        ensures { IsOkAnd result (λ ts. type_exprs_items ts ≡ []) }
    {
        Ok(TypeExprs {
            items: Vec::new(alloc),
        })
    }

    pub fn len(&self) -> usize
        ensures { result ≡ length (type_exprs_items self.now) }
    {
        self.items.len()
    }

    pub fn get(&self, at: usize) -> Option<&TypeExpr>
        ensures { option_copied result ≡ slice_get (type_exprs_items self.now) at }
    {
        self.items.get(at)
    }

    pub fn push(&mut self, item: TypeExpr) -> Result<(), AllocError>
        ensures ok { OnOk result (type_exprs_items self.new ≡ type_exprs_items self.old ++ item ∷ []) }
        ensures err { OnErr result (type_exprs_items self.new ≡ type_exprs_items self.old) }
    {
        self.items.push(item)?;
        Ok(())
    }
}
