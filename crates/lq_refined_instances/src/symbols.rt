// The symbols of scopes by shape, so that unknowns in one scope, or in scopes near one another, share them.
ghost use Rattle.std.specs.Prelude.{◌≡◌, [], Some, map, IfOk, IfSome};
ghost use Rattle.lq_text_qualifiers.specs.Sorting.Views.{shape_view};
ghost use Rattle.lq_refined_instances.specs.Listed.{wanted};
ghost use Rattle.lq_refined_instances.specs.Scopes.{Scope, scope_in};
ghost use Rattle.lq_refined_instances.specs.Seen.{visible_view};
ghost use Rattle.lq_refined_instances.specs.Shaped.{AreListed};
ghost use Rattle.lq_refined_instances.specs.Views.{scopes_view};

use crate::listing::{last_before, listed};
use crate::scope::{Visible, is_same};
use crate::scopes::Scopes;
use lq_text_qualifiers::sorting::{ScopedQualifier, Shape};
use std::alloc::{AllocError, Global};

// So many steps from a scope outward another is near.
const NEAR: u64 = 64;

// So many steps outward is the scope that is listed where none is near.
const OUTWARD: u64 = 8;

/// The symbols of one shape.
#[derive(Drop)]
pub(crate) struct ShapeList {
    pub(crate) shape: Shape,
    pub(crate) symbols: Vec<Visible>,
}

/// The symbols of some shapes in a scope.
#[derive(Drop)]
pub(crate) struct SymbolLists {
    pub(crate) scope: u64,
    pub(crate) lists: Vec<ShapeList>,
}

// Whether a shape is among some.
fn has_shape(shapes: &[Shape], shape: Shape) -> bool {
    shapes.iter().any(|other| is_same(shape, *other))
}

// The shapes of all placeholders, each once.
fn asked_shapes(alloc: Global, qualifiers: &[ScopedQualifier]) -> Result<Vec<Shape>, AllocError> {
    let mut shapes = Vec::new(alloc);
    for qualifier in qualifiers {
        for shape in &qualifier.placeholders {
            if !has_shape(&shapes, *shape) {
                shapes.push(*shape)?;
            }
        }
    }
    Ok(shapes)
}

/// The symbols that the first scope has of the shapes of all placeholders: none.
pub(crate) fn no_symbols(
    alloc: Global,
    qualifiers: &[ScopedQualifier],
) -> Result<SymbolLists, AllocError>
    ensures scope { IfOk result (λ l. l.scope ≡ 0) }
    ensures lists { IfOk result (λ l. AreListed [] l.lists.items) }
{
    let shapes = asked_shapes(alloc, qualifiers)?;
    let mut lists = Vec::new(alloc);
    for shape in &shapes {
        let symbols = Vec::new(alloc);
        lists.push(ShapeList {
            shape: *shape,
            symbols,
        })?;
    }
    Ok(SymbolLists { scope: 0, lists })
}

/// The symbols of the same shapes in another scope.
pub(crate) fn lists_at(
    alloc: Global,
    scopes: &Scopes,
    at: u64,
    near: &SymbolLists,
) -> Result<SymbolLists, AllocError>
    requires { AreListed (scope_in (scopes_view scopes.now) near.now.scope) near.now.lists.items }
    ensures scope { IfOk result (λ l. l.scope ≡ at) }
    ensures lists { IfOk result (λ l. AreListed (scope_in (scopes_view scopes.now) at) l.lists.items) }
{
    let mut lists = Vec::new(alloc);
    for list in &near.lists {
        let shape = list.shape;
        let symbols = listed(alloc, scopes, at, Some(shape), near.scope, &list.symbols)?;
        lists.push(ShapeList { shape, symbols })?;
    }
    Ok(SymbolLists { scope: at, lists })
}

// Whether few steps outward from a scope another is met, or nothing is left.
fn is_near(scopes: &Scopes, at: u64, other: u64) -> bool {
    let mut left = at;
    for _ in 0..NEAR {
        match last_before(scopes, left, other) {
            Some(addition) => left = addition.parent,
            None => return true,
        }
    }
    false
}

// The scope that is a few steps outward.
fn outward(scopes: &Scopes, at: u64) -> u64 {
    let mut left = at;
    for _ in 0..OUTWARD {
        if let Some(addition) = scopes.last(left) {
            left = addition.parent;
        }
    }
    left
}

/// Symbols of the same shapes in a scope that is near the one that is wanted.
pub(crate) fn nearer(
    alloc: Global,
    scopes: &Scopes,
    at: u64,
    known: SymbolLists,
) -> Result<SymbolLists, AllocError>
    requires { AreListed (scope_in (scopes_view scopes.now) known.scope) known.lists.items }
    ensures { IfOk result (λ l. AreListed (scope_in (scopes_view scopes.now) l.scope) l.lists.items) }
{
    if is_near(scopes, at, known.scope) {
        return Ok(known);
    }
    lists_at(alloc, scopes, outward(scopes, at), &known)
}

/// The symbols of a shape, if they are listed.
pub(crate) fn symbols_in<'a>(lists: &'a SymbolLists, shape: Shape) -> Option<&'a [Visible]>
    ensures { (Γ : Scope) → AreListed Γ lists.now.lists.items
        → IfSome result (λ s. map visible_view s.now ≡ wanted (Some (shape_view shape)) Γ) }
{
    for list in &lists.lists {
        if is_same(shape, list.shape) {
            return Some(&list.symbols);
        }
    }
    None
}
