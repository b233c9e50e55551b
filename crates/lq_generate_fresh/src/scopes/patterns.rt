// The patterns of unknowns, made where substitution looks at them.
ghost use Rattle.std.specs.Prelude.{◌≡◌, ◌<◌, ◌&&◌, [], ◌∷◌, ◌++◌, IfOk, OnOk, length, map, slice_index_or};
ghost use Rattle.lq_refined_instances.specs.Scopes.{scope_in, Scope as Symbols, Visible as Seen};
ghost use Rattle.lq_refined_instances.specs.Views.{scopes_view as table_view, unknowns_view};
ghost use Rattle.lq_refined_substitution.specs.Substitution.Places.{AreInner};
ghost use Rattle.lq_refined_substitution.specs.Substitution.Views.{inner_view, pattern_lists, scope_lists, unknown_lists};
ghost use Rattle.lq_generate_fresh.specs.Scopes.Inside.{inner_unknown, is_nothing, is_value, nothing, AreInside, IsInner};
ghost use Rattle.lq_generate_fresh.specs.Scopes.Numbered.{Begins, Extends};

use lq_logic_predicates::Symbol;
use lq_refined_instances::{Scopes as Table, Unknown, Unknowns};
use lq_refined_substitution::substitution::{Inner, Scopes};
use std::alloc::{AllocError, Global};

// Whether nothing is visible in a scope.
fn is_empty(table: &Table, at: u64) -> bool
    ensures { result ≡ is_nothing (scope_in (table_view table.now) at) }
{
    match table.last(at) {
        Some(_) => false,
        None => true,
    }
}

// Whether a symbol is the value, as that of the mark is.
fn is_value(symbol: Symbol) -> bool
    ensures { result ≡ is_value symbol }
{
    match symbol {
        Symbol::Value => true,
        Symbol::Bound(_) | Symbol::Position(_) => false,
    }
}

// Whether a symbol stands where the mark does.
fn is_mark(is_first: bool, symbol: Symbol) -> bool
    ensures { result ≡ (is_first && is_value symbol) }
{
    if is_first { is_value(symbol) } else { false }
}

// Makes a scope of a pattern, with one symbol behind those of an earlier one; the mark is left out.
fn with_symbol(
    scopes: &mut Scopes,
    before: Inner,
    is_first: bool,
    symbol: Symbol,
) -> Result<Inner, AllocError>
    requires { before.scope < length (scope_lists scopes.old) }
    ensures same { IfOk result (λ i. (Δ : Symbols) (v : Seen) → IsInner Δ (scope_lists scopes.old) before
        → is_first ≡ is_nothing Δ → v.0 ≡ symbol → IsInner (Δ ++ v ∷ []) (scope_lists scopes.new) i) }
    ensures kept { OnOk result (Extends (scope_lists scopes.old) (scope_lists scopes.new)) }
    ensures unknowns { unknown_lists scopes.new ≡ unknown_lists scopes.old }
    ensures patterns { pattern_lists scopes.new ≡ pattern_lists scopes.old }
{
    if is_mark(is_first, symbol) {
        return Ok(Inner {
            scope: before.scope,
            is_behind: true,
        });
    }
    let scope = scopes.add(before.scope, symbol)?;
    Ok(Inner {
        scope,
        is_behind: before.is_behind,
    })
}

// Makes a scope of a pattern, whose symbols are added one by one.
fn listed(alloc: Global, scopes: &mut Scopes, table: &Table, at: u64) -> Result<Inner, AllocError>
    requires { Begins (scope_lists scopes.old) }
    ensures same { IfOk result (λ i. IsInner (scope_in (table_view table.now) at) (scope_lists scopes.new) i) }
    ensures kept { OnOk result (Extends (scope_lists scopes.old) (scope_lists scopes.new)) }
    ensures unknowns { unknown_lists scopes.new ≡ unknown_lists scopes.old }
    ensures patterns { pattern_lists scopes.new ≡ pattern_lists scopes.old }
{
    let symbols = table.visible(alloc, at)?;
    let mut inner = Inner {
        scope: 0,
        is_behind: false,
    };
    let mut is_first = true;
    for visible in &symbols {
        inner = with_symbol(scopes, inner, is_first, visible.symbol)?;
        is_first = false;
    }
    Ok(inner)
}

// Makes a scope of a pattern's table, where the earlier ones are made. Patterns hardly ever hide a symbol; where one does, all symbols are
// added anew, since what is hidden may have stood before the others.
fn inner_made(
    alloc: Global,
    scopes: &mut Scopes,
    table: &Table,
    inner: &[Inner],
    at: u64,
) -> Result<Inner, AllocError>
    requires begins { Begins (scope_lists scopes.old) }
    requires all { length inner.now ≡ at }
    requires made { AreInside (table_view table.now) (scope_lists scopes.old) inner.now }
    ensures same { IfOk result (λ i. IsInner (scope_in (table_view table.now) at) (scope_lists scopes.new) i) }
    ensures kept { OnOk result (Extends (scope_lists scopes.old) (scope_lists scopes.new)) }
    ensures unknowns { unknown_lists scopes.new ≡ unknown_lists scopes.old }
    ensures patterns { pattern_lists scopes.new ≡ pattern_lists scopes.old }
{
    let Some(last) = table.last(at) else {
        return Ok(Inner {
            scope: 0,
            is_behind: false,
        });
    };
    match last.hidden {
        None => {
            let before = inner[last.parent as usize];
            let is_first = is_empty(table, last.parent);
            let made = with_symbol(scopes, before, is_first, last.visible.symbol)?;
            Ok(made)
        }
        Some(_) => listed(alloc, scopes, table, at),
    }
}

// Makes each scope of a pattern's table.
fn all_inner(alloc: Global, scopes: &mut Scopes, table: &Table) -> Result<Vec<Inner>, AllocError>
    requires { Begins (scope_lists scopes.old) }
    ensures made { IfOk result (λ inner. AreInside (table_view table.now) (scope_lists scopes.new) inner.items) }
    ensures all { IfOk result (λ inner. length inner.items ≡ length (table_view table.now)) }
    ensures kept { OnOk result (Extends (scope_lists scopes.old) (scope_lists scopes.new)) }
    ensures unknowns { unknown_lists scopes.new ≡ unknown_lists scopes.old }
    ensures patterns { pattern_lists scopes.new ≡ pattern_lists scopes.old }
{
    let mut inner = Vec::new(alloc);
    for at in 0..table.len() {
        let made = inner_made(alloc, scopes, table, inner.as_slice(), at)?;
        inner.push(made)?;
    }
    Ok(inner)
}

// What was made by its place; behind the end the empty scope.
fn inner_at(inner: &[Inner], at: u64) -> Inner
    ensures { result ≡ slice_index_or inner.now at nothing }
{
    match inner.get(at as usize) {
        Some(made) => *made,
        None => Inner {
            scope: 0,
            is_behind: false,
        },
    }
}

// The scopes of a pattern's unknowns, where those of its table are made.
fn inner_of(alloc: Global, inner: &[Inner], unknowns: &[Unknown]) -> Result<Vec<Inner>, AllocError>
    ensures { IfOk result (λ made. made.items ≡ map (λ u. slice_index_or inner.now u.scope nothing) unknowns.now) }
{
    let mut made = Vec::new(alloc);
    for unknown in unknowns {
        made.push(inner_at(inner, unknown.scope))?;
    }
    Ok(made)
}

// Adds a pattern.
fn add_pattern(alloc: Global, scopes: &mut Scopes, pattern: &Unknowns) -> Result<(), AllocError>
    requires { Begins (scope_lists scopes.old) }
    ensures added { OnOk result (pattern_lists scopes.new
        ≡ pattern_lists scopes.old ++ map inner_unknown (unknowns_view pattern.now) ∷ []) }
    ensures kept { OnOk result (Extends (scope_lists scopes.old) (scope_lists scopes.new)) }
    ensures unknowns { unknown_lists scopes.new ≡ unknown_lists scopes.old }
{
    let inner = all_inner(alloc, scopes, &pattern.scopes)?;
    let made = inner_of(alloc, inner.as_slice(), pattern.unknowns.as_slice())?;
    scopes.add_pattern(made)?;
    Ok(())
}

/// Adds patterns in their order.
pub(crate) fn add_patterns(
    alloc: Global,
    scopes: &mut Scopes,
    patterns: &[Unknowns],
) -> Result<(), AllocError>
    requires { Begins (scope_lists scopes.old) }
    ensures added { OnOk result (pattern_lists scopes.new
        ≡ pattern_lists scopes.old ++ map (map inner_unknown) (map unknowns_view patterns.now)) }
    ensures kept { OnOk result (Extends (scope_lists scopes.old) (scope_lists scopes.new)) }
    ensures unknowns { unknown_lists scopes.new ≡ unknown_lists scopes.old }
{
    for pattern in patterns {
        add_pattern(alloc, scopes, pattern)?;
    }
    Ok(())
}
