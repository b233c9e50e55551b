// Replacements of placeholders by symbols.
ghost use Rattle.std.specs.Prelude.{◌≡◌, ◌∷◌, [], ◌++◌, true, map, IfOk, OnOk};
ghost use Rattle.lq_text_qualifiers.specs.Sorting.Views.{shape_view};
ghost use Rattle.lq_refined_instances.specs.Instances.{replacements};
ghost use Rattle.lq_refined_instances.specs.Scopes.{Scope, scope_in, symbols_of};
ghost use Rattle.lq_refined_instances.specs.Replacing.{each_longer, is_empty, longer};
ghost use Rattle.lq_refined_instances.specs.Shaped.{AreListed};
ghost use Rattle.lq_refined_instances.specs.Views.{scopes_view};

use crate::listing::listed;
use crate::scope::Visible;
use crate::scopes::Scopes;
use crate::symbols::{SymbolLists, symbols_in};
use lq_logic_predicates::Symbol;
use lq_text_qualifiers::sorting::Shape;
use std::alloc::{AllocError, Global};

// The symbols themselves.
fn names(alloc: Global, items: &[Visible]) -> Result<Vec<Symbol>, AllocError>
    ensures { IfOk result (λ names. names.items ≡ map (λ v. v.symbol) items.now) }
{
    items.iter().map(|visible| visible.symbol).collect(alloc)
}

// The symbols of a shape.
fn symbols_of(
    alloc: Global,
    scopes: &Scopes,
    lists: &SymbolLists,
    shape: Shape,
) -> Result<Vec<Symbol>, AllocError>
    requires { AreListed (scope_in (scopes_view scopes.now) lists.now.scope) lists.now.lists.items }
    ensures { IfOk result (λ found. found.items
        ≡ symbols_of (scope_in (scopes_view scopes.now) lists.now.scope) (shape_view shape)) }
{
    if let Some(items) = symbols_in(lists, shape) {
        return names(alloc, items);
    }
    let nothing = Vec::new(alloc);
    let items = listed(alloc, scopes, lists.scope, Some(shape), 0, &nothing)?;
    names(alloc, &items)
}

// A list of symbols with each of some others behind it, in a row of lists.
fn push_longer(
    alloc: Global,
    row: &mut Vec<Vec<Symbol>>,
    list: &[Symbol],
    symbols: &[Symbol],
) -> Result<(), AllocError>
    ensures { OnOk result (map (λ l. l.items) row.new.items
        ≡ map (λ l. l.items) row.old.items ++ longer symbols.now list.now) }
{
    for symbol in symbols {
        let mut next = Vec::new(alloc);
        next.extend_from_slice(list)?;
        next.push(*symbol)?;
        row.push(next)?;
    }
    Ok(())
}

// Each of the lists with each of the symbols behind it.
fn each_longer(
    alloc: Global,
    lists: &[Vec<Symbol>],
    symbols: &[Symbol],
) -> Result<Vec<Vec<Symbol>>, AllocError>
    ensures { IfOk result (λ row. map (λ l. l.items) row.items
        ≡ each_longer symbols.now (map (λ l. l.items) lists.now)) }
{
    let mut row = Vec::new(alloc);
    for list in lists {
        push_longer(alloc, &mut row, list, symbols)?;
    }
    Ok(row)
}

// Whether it is known that no symbol has this shape.
fn is_missing(lists: &SymbolLists, shape: Shape) -> bool
    ensures { (Γ : Scope) → AreListed Γ lists.now.lists.items → result ≡ true
        → is_empty (symbols_of Γ (shape_view shape)) ≡ true }
{
    match symbols_in(lists, shape) {
        Some(items) => items.is_empty(),
        None => false,
    }
}

// Whether it is known that a placeholder has no symbol.
fn lacks(lists: &SymbolLists, placeholders: &[Shape]) -> bool
    ensures { (Γ : Scope) → AreListed Γ lists.now.lists.items → result ≡ true
        → replacements Γ (map shape_view placeholders.now) ≡ [] }
{
    for shape in placeholders {
        if is_missing(lists, *shape) {
            return true;
        }
    }
    false
}

/// All lists of symbols for placeholders of these shapes, the first symbol varying slowest. In memory linear in these.
pub(crate) fn replacements(
    alloc: Global,
    scopes: &Scopes,
    lists: &SymbolLists,
    placeholders: &[Shape],
) -> Result<Vec<Vec<Symbol>>, AllocError>
    requires { AreListed (scope_in (scopes_view scopes.now) lists.now.scope) lists.now.lists.items }
    ensures { IfOk result (λ row. map (λ l. l.items) row.items
        ≡ replacements (scope_in (scopes_view scopes.now) lists.now.scope)
        (map shape_view placeholders.now)) }
{
    let mut row = Vec::new(alloc);
    if lacks(lists, placeholders) {
        return Ok(row);
    }
    row.push(Vec::new(alloc))?;
    for shape in placeholders {
        let symbols = symbols_of(alloc, scopes, lists, *shape)?;
        row = each_longer(alloc, &row, &symbols)?;
    }
    Ok(row)
}
