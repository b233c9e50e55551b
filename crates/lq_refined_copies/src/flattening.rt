// Unknowns without copies.
ghost use Rattle.std.specs.Prelude.{◌≡◌, ◌<◌, ◌&&◌, [], ◌∷◌, ◌++◌, length, map, slice_index_or, IfOk, OnOk};
ghost use Rattle.lq_refined_instances.specs.Scopes.{Scope, scope_in};
ghost use Rattle.lq_refined_instances.specs.Seen.{visible_view};
ghost use Rattle.lq_refined_instances.specs.Views.{scopes_view, unknowns_view};
ghost use Rattle.lq_refined_copies.specs.Completed.{all_completed, completed};
ghost use Rattle.lq_refined_copies.specs.Flattening.{is_nothing, is_value, numbered, AreCompleted, AreThere};
ghost use Rattle.lq_refined_copies.specs.Longer.{Longer};
ghost use Rattle.lq_refined_copies.specs.Runs.{run_view, IsInside};
ghost use Rattle.lq_refined_copies.specs.Views.{shared_view};

use crate::unknowns::{Run, SharedUnknowns};
use lq_logic_predicates::Symbol;
use lq_refined_instances::{Scopes, Unknown, Unknowns, Visible};
use std::alloc::{AllocError, Global};

/// Whether nothing is visible in a scope.
pub(crate) fn is_empty(table: &Scopes, at: u64) -> bool
    ensures { result ≡ is_nothing (scope_in (scopes_view table.now) at) }
{
    match table.last(at) {
        Some(_) => false,
        None => true,
    }
}

// Whether a symbol is the value, as that of the mark is.
fn is_value(symbol: Symbol) -> bool
    ensures { result ≡ is_value symbol }
{
    match symbol {
        Symbol::Value => true,
        Symbol::Bound(_) | Symbol::Position(_) => false,
    }
}

// Whether a symbol stands where the mark does.
fn is_mark(is_first: bool, symbol: Symbol) -> bool
    ensures { result ≡ (is_first && is_value symbol) }
{
    if is_first { is_value(symbol) } else { false }
}

// The number of a completed scope with one symbol more.
fn with_symbol(
    scopes: &mut Scopes,
    scope: u64,
    parent: u64,
    is_first: bool,
    visible: Visible,
) -> Result<u64, AllocError>
    requires scope { scope < length (scopes_view scopes.old) }
    requires parent { parent < length (scopes_view scopes.old) }
    ensures same { IfOk result (λ n. (Δ : Scope)
        → scope_in (scopes_view scopes.old) parent ≡ completed (scope_in (scopes_view scopes.old) scope) Δ
        → is_first ≡ is_nothing Δ → scope_in (scopes_view scopes.new) n
        ≡ completed (scope_in (scopes_view scopes.old) scope) (Δ ++ visible_view visible ∷ [])) }
    ensures there { IfOk result (λ n. n < length (scopes_view scopes.new)) }
    ensures longer { OnOk result (Longer (scopes_view scopes.old) (scopes_view scopes.new)) }
{
    if is_mark(is_first, visible.symbol) {
        return Ok(scope);
    }
    let number = scopes.add(parent, visible)?;
    Ok(number)
}

// The number of a completed scope whose symbols are added one by one.
fn listed(
    alloc: Global,
    scopes: &mut Scopes,
    table: &Scopes,
    scope: u64,
    at: u64,
) -> Result<u64, AllocError>
    requires { scope < length (scopes_view scopes.old) }
    ensures same { IfOk result (λ n. scope_in (scopes_view scopes.new) n
        ≡ completed (scope_in (scopes_view scopes.old) scope) (scope_in (scopes_view table.now) at)) }
    ensures there { IfOk result (λ n. n < length (scopes_view scopes.new)) }
    ensures longer { OnOk result (Longer (scopes_view scopes.old) (scopes_view scopes.new)) }
{
    let symbols = table.visible(alloc, at)?;
    let mut number = 0;
    let mut is_first = true;
    for visible in &symbols {
        number = with_symbol(scopes, scope, number, is_first, *visible)?;
        is_first = false;
    }
    Ok(number)
}

// The number of a completed scope, where the earlier ones have these numbers. A pattern hardly ever hides a symbol; where it does, its
// symbols are added anew, since a symbol that is hidden in the pattern may be visible where it is used.
fn completed_at(
    alloc: Global,
    scopes: &mut Scopes,
    table: &Scopes,
    numbers: &[u64],
    scope: u64,
    at: u64,
) -> Result<u64, AllocError>
    requires scope { scope < length (scopes_view scopes.old) }
    requires all { length numbers.now ≡ at }
    requires made { AreCompleted (scope_in (scopes_view scopes.old) scope) (scopes_view table.now) (scopes_view scopes.old) numbers.now }
    ensures same { IfOk result (λ n. scope_in (scopes_view scopes.new) n
        ≡ completed (scope_in (scopes_view scopes.old) scope) (scope_in (scopes_view table.now) at)) }
    ensures there { IfOk result (λ n. n < length (scopes_view scopes.new)) }
    ensures longer { OnOk result (Longer (scopes_view scopes.old) (scopes_view scopes.new)) }
{
    let Some(last) = table.last(at) else {
        return Ok(0);
    };
    match last.hidden {
        Some(_) => listed(alloc, scopes, table, scope, at),
        None => {
            let parent = numbers[last.parent as usize];
            let is_first = is_empty(table, last.parent);
            let number = with_symbol(scopes, scope, parent, is_first, last.visible)?;
            Ok(number)
        }
    }
}

// The numbers of all completed scopes of a table.
fn all_numbers(
    alloc: Global,
    scopes: &mut Scopes,
    table: &Scopes,
    scope: u64,
) -> Result<Vec<u64>, AllocError>
    requires { scope < length (scopes_view scopes.old) }
    ensures made { IfOk result (λ ns. AreCompleted (scope_in (scopes_view scopes.old) scope) (scopes_view table.now) (scopes_view scopes.new) ns.items) }
    ensures all { IfOk result (λ ns. length ns.items ≡ length (scopes_view table.now)) }
    ensures longer { OnOk result (Longer (scopes_view scopes.old) (scopes_view scopes.new)) }
{
    let mut numbers = Vec::new(alloc);
    for at in 0..table.len() {
        let number = completed_at(alloc, scopes, table, numbers.as_slice(), scope, at)?;
        numbers.push(number)?;
    }
    Ok(numbers)
}

/// A number by its place; behind the end that of the empty scope.
pub(crate) fn number_at(numbers: &[u64], at: u64) -> u64
    ensures { result ≡ slice_index_or numbers.now at 0 }
{
    match numbers.get(at as usize) {
        Some(number) => *number,
        None => 0,
    }
}

// Adds the unknowns of a pattern with other numbers for their scopes.
fn add_numbered(
    pattern: &[Unknown],
    numbers: &[u64],
    unknowns: &mut Vec<Unknown>,
) -> Result<(), AllocError>
    ensures { OnOk result (unknowns.new.items ≡ unknowns.old.items ++ map (numbered numbers.now) pattern.now) }
{
    for unknown in pattern {
        let scope = number_at(numbers, unknown.scope);
        unknowns.push(Unknown {
            scope,
            shape: unknown.shape,
        })?;
    }
    Ok(())
}

// Adds a copy of each unknown of a pattern.
fn add_copies(
    alloc: Global,
    pattern: &Unknowns,
    scope: u64,
    flat: &mut Unknowns,
) -> Result<(), AllocError>
    requires scope { scope < length (scopes_view flat.old.scopes) }
    requires there { AreThere flat.old }
    ensures there { OnOk result (AreThere flat.new) }
    ensures longer { OnOk result (Longer (scopes_view flat.old.scopes) (scopes_view flat.new.scopes)) }
    ensures unknowns { OnOk result (unknowns_view flat.new ≡ unknowns_view flat.old
        ++ all_completed (scope_in (scopes_view flat.old.scopes) scope) (unknowns_view pattern.now)) }
{
    let numbers = all_numbers(alloc, &mut flat.scopes, &pattern.scopes, scope)?;
    add_numbered(&pattern.unknowns, &numbers, &mut flat.unknowns)?;
    Ok(())
}

// Adds the unknowns of a run.
fn add_run(
    alloc: Global,
    patterns: &[Unknowns],
    run: Run,
    flat: &mut Unknowns,
) -> Result<(), AllocError>
    requires inside { IsInside (scopes_view flat.old.scopes) (map unknowns_view patterns.now) run }
    requires there { AreThere flat.old }
    ensures there { OnOk result (AreThere flat.new) }
    ensures longer { OnOk result (Longer (scopes_view flat.old.scopes) (scopes_view flat.new.scopes)) }
    ensures unknowns { OnOk result (unknowns_view flat.new ≡ unknowns_view flat.old
        ++ run_view (scopes_view flat.old.scopes) (map unknowns_view patterns.now) run) }
{
    match run {
        Run::One(unknown) => {
            flat.unknowns.push(unknown)?;
            Ok(())
        }
        Run::Copies { pattern, scope } => {
            add_copies(alloc, &patterns[pattern as usize], scope, flat)
        }
    }
}

impl SharedUnknowns {
    /// The same unknowns, each by itself, in one table. A copy of a pattern takes as many scopes as the pattern has.
    pub fn flat(self, alloc: Global) -> Result<Unknowns, AllocError>
        ensures { IfOk result (λ u. unknowns_view u ≡ shared_view self) }
    {
        let patterns = self.patterns;
        let mut flat = Unknowns {
            scopes: self.scopes,
            unknowns: Vec::new(alloc),
        };
        for run in &self.runs {
            add_run(alloc, &patterns, *run, &mut flat)?;
        }
        Ok(flat)
    }
}
