// Scopes that stand alone.
ghost use Rattle.std.specs.Prelude.{◌≡◌, [], ◌∷◌, ◌++◌, length, map, slice_get, IfOk, OnOk, OnErr};
ghost use Rattle.std.specs.Option.{option_copied};
ghost use Rattle.lq_text_qualifiers.specs.Faults.Shapes.{is_same};
ghost use Rattle.lq_text_qualifiers.specs.Sorting.Views.{shape_view};

use lq_logic_predicates::Symbol;
use lq_text_qualifiers::sorting::Shape;
use std::alloc::{AllocError, Global};

/// A symbol that is visible, and its shape.
#[derive(Clone, Copy, Debug, PartialEq, Eq)]
pub struct Visible {
    pub symbol: Symbol,
    pub shape: Shape,
}

/// The symbols that are visible at a place, the outermost first.
#[derive(Debug, Drop)]
pub struct Scope {
    pub(crate) items: Vec<Visible>,
}

impl Scope {
    /// Nothing is visible.
    pub fn new(alloc: Global) -> Result<Scope, AllocError>
        ensures { IfOk result (λ scope. scope.items.items ≡ []) }
    {
        Ok(Scope {
            items: Vec::new(alloc),
        })
    }

    /// How many symbols are visible.
    pub fn len(&self) -> usize
        ensures { result ≡ length self.now.items.items }
    {
        self.items.len()
    }

    /// The symbol at an index, and None past the last one.
    pub fn get(&self, at: usize) -> Option<&Visible>
        ensures { option_copied result ≡ slice_get self.now.items.items at }
    {
        self.items.get(at)
    }

    /// Adds a symbol behind the others. Where memory is refused, the scope stays as it was.
    pub fn push(&mut self, visible: Visible) -> Result<(), AllocError>
        ensures ok { OnOk result (self.new.items.items ≡ self.old.items.items ++ visible ∷ []) }
        ensures err { OnErr result (self.new.items.items ≡ self.old.items.items) }
    {
        self.items.push(visible)?;
        Ok(())
    }
}

/// Whether two shapes are one.
pub(crate) fn is_same(first: Shape, second: Shape) -> bool
    ensures { result ≡ is_same (shape_view first) (shape_view second) }
{
    match (first, second) {
        (Shape::Int, Shape::Int) | (Shape::Bool, Shape::Bool) | (Shape::Array, Shape::Array) => {
            true
        }
        (Shape::Data(name), Shape::Data(other)) => name.0 == other.0,
        (Shape::Int, _) | (Shape::Bool, _) | (Shape::Array, _) | (Shape::Data(_), _) => false,
    }
}
