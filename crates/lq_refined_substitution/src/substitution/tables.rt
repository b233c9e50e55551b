// Scopes in a table, each but the first by its parent.
ghost use Rattle.std.specs.Prelude.{◌≡◌, ◌≤◌, List, IfSome, MatchOption};
ghost use Rattle.lq_refined_types.specs.Parts.Substitution.{is_in};
ghost use Rattle.lq_logic_predicates.specs.declared.symbol.Symbol.{Symbol as Names};
ghost use Rattle.lq_refined_substitution.specs.Substitution.Scopes.{rank, shown, AreBelow, AreJumps, AreWithin};

use crate::substitution::swaps::is_same_symbol;
use lq_logic_predicates::Symbol;
use std::alloc::{AllocError, Global};

// A jump from a scope outward: the scope where it ends, how many scopes it goes over, with the one where it starts, and the lowest rank of
// a symbol that one of these adds or hides. A symbol that ranks lower is in the scope where it starts as in the one where it ends.
#[derive(Clone, Copy, Debug)]
struct Jump {
    to: u64,
    span: u64,
    lowest: u64,
}

impl Jump {
    // Both jumps as one, where the next one starts at the end of this one.
    fn and(self, next: Jump) -> Jump
        ensures end { result.to ≡ next.to }
        ensures first { result.lowest ≤ self.lowest }
        ensures second { result.lowest ≤ next.lowest }
    {
        Jump {
            to: next.to,
            span: self.span.saturating_add(next.span),
            lowest: self.lowest.min(next.lowest),
        }
    }
}

// A scope: its parent, the symbol that it has besides, the symbol of the parent that it hasn't, the highest rank of a symbol on the way to
// the empty scope, and a jump. It ends at the parent; but where the parent's jump and the one from its end go over equally many scopes, at
// the end of both. So parents and jumps lead from a scope to any one outward in steps whose number is logarithmic in how deep the scope is.
#[derive(Clone, Copy, Debug)]
struct Entry {
    parent: u64,
    symbol: Symbol,
    hidden: Option<Symbol>,
    highest: u64,
    jump: Jump,
}

impl Entry {
    // Whether the scope has a symbol; None where that is as in its parent.
    fn has(&self, symbol: Symbol) -> Option<bool>
        ensures { MatchOption result
            ((up : List Names) → is_in (shown self.now up) symbol ≡ is_in up symbol)
            (λ b. (up : List Names) → is_in (shown self.now up) symbol ≡ b) }
    {
        if is_same_symbol(self.symbol, symbol) {
            return Some(true);
        }
        let hidden = self.hidden?;
        if is_same_symbol(hidden, symbol) {
            return Some(false);
        }
        None
    }
}

// Positions rank above all binders.
const POSITIONS: u64 = 1 << 32;

// A binder that stands later in a text mostly ranks higher.
pub(crate) fn rank(symbol: Symbol) -> u64
    ensures { result ≡ rank symbol }
{
    match symbol {
        Symbol::Value => 0,
        Symbol::Bound(binder) => binder.0 as u64,
        Symbol::Position(at) => at as u64 + POSITIONS,
    }
}

// The lowest rank of a symbol that a scope adds or hides.
fn lowest_rank(symbol: Symbol, hidden: Option<Symbol>) -> u64
    ensures added { result ≤ rank symbol }
    ensures hidden { IfSome hidden (λ h. result ≤ rank h) }
{
    match hidden {
        Some(hidden) => rank(symbol).min(rank(hidden)),
        None => rank(symbol),
    }
}

// Scopes by their numbers: the first is empty, and each other one has the symbols of an earlier one, but for one that it may hide, and one
// more. Nothing is copied.
#[derive(Drop)]
pub(crate) struct Table {
    entries: Vec<Entry>,
    ghost parents: { AreBelow entries.items },
    ghost within: { AreWithin entries.items },
    ghost jumps: { AreJumps entries.items },
}

impl Table {
    ghost use Rattle.std.specs.Prelude.{◌≡◌, ◌<◌, ◌≤◌, [], ◌∷◌, ◌++◌, length, slice_get, IfOk, IfSome, OnOk, OnErr, MatchOption};
    ghost use Rattle.lq_refined_types.specs.Parts.Substitution.{is_in};
    ghost use Rattle.lq_refined_substitution.specs.Substitution.Scopes.{left, rank, shown, AgreeBelow, IsWithin};
    ghost use Rattle.lq_refined_substitution.specs.Substitution.Tables.{table_at, table_lists};

    // The empty scope alone.
    pub(crate) fn new(alloc: Global) -> Table
        ensures { table_lists result ≡ [] ∷ [] }
    {
        Table {
            entries: Vec::new(alloc),
        }
    }

    // How many scopes there are.
    pub(crate) fn len(&self) -> u64
        ensures { result ≡ length (table_lists self.now) }
    {
        self.entries.len() as u64 + 1
    }

    // One scope more, with the symbols of the parent but for one that it may hide, and this one behind them; and its number.
    pub(crate) fn extend(
        &mut self,
        parent: u64,
        symbol: Symbol,
        hidden: Option<Symbol>,
    ) -> Result<u64, AllocError>
        requires { parent < length (table_lists self.old) }
        ensures added { OnOk result (table_lists self.new ≡ table_lists self.old
            ++ (left hidden (table_at self.old parent) ++ symbol ∷ []) ∷ []) }
        ensures number { IfOk result (λ at. at ≡ length (table_lists self.old)) }
        ensures kept { OnErr result (table_lists self.new ≡ table_lists self.old) }
    {
        let number = self.entries.len() as u64 + 1;
        let highest = self.highest_of(parent, symbol);
        let jump = self.jump_of(parent, symbol, hidden);
        self.entries.push(Entry {
            parent,
            symbol,
            hidden,
            highest,
            jump,
        })?;
        Ok(number)
    }

    // The highest rank, where a symbol is added to a scope.
    fn highest_of(&self, parent: u64, symbol: Symbol) -> u64
        ensures parent { IsWithin result (table_at self.now parent) }
        ensures symbol { rank symbol ≤ result }
    {
        let own = rank(symbol);
        match self.entry(parent) {
            Some(entry) => {
                if own < entry.highest {
                    entry.highest
                } else {
                    own
                }
            }
            None => own,
        }
    }

    // The jump of a scope that is still to be added.
    fn jump_of(&self, parent: u64, symbol: Symbol, hidden: Option<Symbol>) -> Jump
        ensures earlier { result.to ≤ parent }
        ensures agree { AgreeBelow result.lowest
            (left hidden (table_at self.now parent) ++ symbol ∷ []) (table_at self.now result.to) }
    {
        let step = Jump {
            to: parent,
            span: 1,
            lowest: lowest_rank(symbol, hidden),
        };
        match self.two_jumps(parent) {
            Some(jumps) => step.and(jumps),
            None => step,
        }
    }

    // The jump of a scope and the one from its end as one, where both go over equally many scopes.
    fn two_jumps(&self, at: u64) -> Option<Jump>
        ensures earlier { IfSome result (λ jump. jump.to ≤ at) }
        ensures agree { IfSome result (λ jump. AgreeBelow jump.lowest (table_at self.now at) (table_at self.now jump.to)) }
    {
        let first = self.entry(at)?.jump;
        let second = self.entry(first.to)?.jump;
        if first.span != second.span {
            return None;
        }
        Some(first.and(second))
    }

    // What was added at an index of the table.
    fn added(&self, at: usize) -> Option<Entry>
        ensures { result ≡ slice_get self.now.entries.items at }
    {
        match self.entries.get(at) {
            Some(entry) => Some(*entry),
            None => None,
        }
    }

    // What a scope adds to its parent; None of the empty one, and of one that isn't there.
    fn entry(&self, at: u64) -> Option<Entry>
        ensures symbols { MatchOption result (table_at self.now at ≡ [])
            (λ e. table_at self.now at ≡ shown e (table_at self.now e.parent)) }
        ensures within { IfSome result (λ e. IsWithin e.highest (table_at self.now at)) }
        ensures earlier { IfSome result (λ e. e.parent < at) }
        ensures outward { IfSome result (λ e. e.jump.to < at) }
        ensures agree { IfSome result (λ e. AgreeBelow e.jump.lowest (table_at self.now at) (table_at self.now e.jump.to)) }
    {
        if at == 0 {
            return None;
        }
        self.added(at as usize - 1)
    }

    // Whether a symbol is in a scope. The way goes from the scope outward, no further than there may be the symbol, and it jumps over scopes
    // that add and hide only symbols of higher ranks.
    pub(crate) fn has(&self, scope: u64, symbol: Symbol) -> bool
        ensures { result ≡ is_in (table_at self.now scope) symbol }
    {
        let wanted = rank(symbol);
        let mut at = scope;
        while let Some(entry) = self.entry(at) {
            if entry.highest < wanted {
                return false;
            }
            if wanted < entry.jump.lowest {
                at = entry.jump.to;
                continue;
            }
            if let Some(has) = entry.has(symbol) {
                return has;
            }
            at = entry.parent;
        }
        false
    }
}
