// Simple types.
ghost use Rattle.std.specs.Prelude.{◌≡◌, [], ◌∷◌, ◌++◌, length, slice_get, option_copied, IfOk, IsOkAnd, OnOk, OnErr};
ghost use Rattle.lq_text_tree.specs.SimpleTypeView.{simple_type_view, simple_types_view, simple_types_items};

use lq_base_names::Name;
use std::alloc::{AllocError, Global};

/// A type without refinements, as the rules of ML give it. Its variables are numbered.
#[cycle(simple_type)]
#[derive(Drop)]
pub enum SimpleType {
    Int,
    Bool,
    Unit,
    Var(u64),
    Arrow(Box<SimpleType>, Box<SimpleType>),
    Tuple(SimpleTypes),
    Array(Box<SimpleType>),
    /// A datatype with its arguments.
    Named(Name, SimpleTypes),
    /// A map from whole numbers to values of this type.
    Map(Box<SimpleType>),
}

/// Simple types in a row.
#[cycle(simple_type)]
#[derive(Drop)]
pub struct SimpleTypes {
    items: Vec<SimpleType>,
}

/// A type that stands for all its instances: the variables below `vars` may be replaced.
#[derive(Drop)]
pub struct Scheme {
    pub vars: u64,
    pub body: SimpleType,
}

impl SimpleTypes {
    pub fn new(alloc: Global) -> Result<SimpleTypes, AllocError>
        ensures { IsOkAnd result (λ ts. simple_types_items ts ≡ []) }
    {
        Ok(SimpleTypes {
            items: Vec::new(alloc),
        })
    }

    pub fn len(&self) -> usize
        ensures { result ≡ length (simple_types_items self.now) }
    {
        self.items.len()
    }

    pub fn get(&self, at: usize) -> Option<&SimpleType>
        ensures { option_copied result ≡ slice_get (simple_types_items self.now) at }
    {
        self.items.get(at)
    }

    pub fn push(&mut self, item: SimpleType) -> Result<(), AllocError>
        ensures ok { OnOk result (simple_types_items self.new ≡ simple_types_items self.old ++ item ∷ []) }
        ensures err { OnErr result (simple_types_items self.new ≡ simple_types_items self.old) }
    {
        self.items.push(item)?;
        Ok(())
    }

    #[cycle(copy_simple_type)]
    pub fn copy(&self, alloc: Global) -> Result<SimpleTypes, AllocError>
        ensures { IfOk result (λ ts. simple_types_view ts ≡ simple_types_view self.now) }
    {
        let mut items = Vec::new(alloc);
        for t in &self.items {
            items.push(t.copy(alloc)?)?;
        }
        Ok(SimpleTypes { items })
    }
}

impl SimpleType {
    /// An equal type.
    #[cycle(copy_simple_type)]
    pub fn copy(&self, alloc: Global) -> Result<SimpleType, AllocError>
        ensures { IfOk result (λ t. simple_type_view t ≡ simple_type_view self.now) }
    {
        match self {
            SimpleType::Int => Ok(SimpleType::Int),
            SimpleType::Bool => Ok(SimpleType::Bool),
            SimpleType::Unit => Ok(SimpleType::Unit),
            SimpleType::Var(n) => Ok(SimpleType::Var(*n)),
            SimpleType::Arrow(a, b) => Ok(SimpleType::Arrow(a.boxed(alloc)?, b.boxed(alloc)?)),
            SimpleType::Tuple(parts) => Ok(SimpleType::Tuple(parts.copy(alloc)?)),
            SimpleType::Array(item) => Ok(SimpleType::Array(item.boxed(alloc)?)),
            SimpleType::Named(name, arguments) => {
                Ok(SimpleType::Named(*name, arguments.copy(alloc)?))
            }
            SimpleType::Map(item) => Ok(SimpleType::Map(item.boxed(alloc)?)),
        }
    }

    #[cycle(copy_simple_type)]
    fn boxed(&self, alloc: Global) -> Result<Box<SimpleType>, AllocError>
        ensures { IfOk result (λ b. simple_type_view b.value ≡ simple_type_view self.now) }
    {
        let copied = self.copy(alloc)?;
        Ok(Box::new(alloc, copied)?)
    }
}
