// The scopes of unknowns.
ghost use Rattle.std.specs.Prelude.{length, All};
ghost use Rattle.lq_refined_substitution.specs.Substitution.Placed.{patterns_of, places_of};
ghost use Rattle.lq_refined_substitution.specs.Substitution.Places.{AreInner, IsThere};
ghost use Rattle.lq_refined_substitution.specs.Substitution.Tables.{table_lists};

use crate::substitution::places::{Inner, Place, Places};
use crate::substitution::swaps::is_same_symbol;
use crate::substitution::tables::Table;
use lq_logic_predicates::Symbol;
use std::alloc::{AllocError, Global};

/// For each unknown the symbols of which its instances may speak: the value, and those of a scope. Scopes are numbered from 0: the first is
/// empty, and each other one has the symbols of an earlier one, but for one that it may hide, and one more. Nothing is copied. Unknowns are
/// given one by one, or as copies of a pattern: a list of unknowns, each with a scope, before which the scope may stand at which the pattern is
/// used. A copy takes as much memory whatever its pattern's length.
#[derive(Drop)]
pub struct Scopes {
    table: Table,
    places: Places,
    ghost there: { All (IsThere (length (table_lists table))) (places_of places) },
    ghost inner: { All (AreInner (length (table_lists table))) (patterns_of places) },
}

impl Scopes {
    ghost use Rattle.std.specs.Prelude.{◌≡◌, ◌<◌, [], ◌∷◌, ◌++◌, length, map, slice_index_or, IfOk, OnOk, OnErr};
    ghost use Rattle.lq_refined_types.specs.Parts.Substitution.{is_in};
    ghost use Rattle.lq_refined_substitution.specs.Substitution.Placed.{place_list};
    ghost use Rattle.lq_refined_substitution.specs.Substitution.Scopes.{inner_list, left, without};
    ghost use Rattle.lq_refined_substitution.specs.Substitution.Views.{inner_view, pattern_lists, scope_at, scope_lists, scopes_view, unknown_lists};

    /// The empty scope alone, no unknowns, and no patterns.
    pub fn new(alloc: Global) -> Result<Scopes, AllocError>
        ensures scopes { IfOk result (λ all. scope_lists all ≡ [] ∷ []) }
        ensures unknowns { IfOk result (λ all. unknown_lists all ≡ []) }
        ensures patterns { IfOk result (λ all. pattern_lists all ≡ []) }
    {
        Ok(Scopes {
            table: Table::new(alloc),
            places: Places::new(alloc),
        })
    }

    /// How many scopes there are.
    pub fn len(&self) -> u64
        ensures { result ≡ length (scope_lists self.now) }
    {
        self.table.len()
    }

    /// How many unknowns there are.
    pub fn unknown_count(&self) -> u64
        ensures { result ≡ length (unknown_lists self.now) }
    {
        self.places.len()
    }

    /// Adds a scope with the symbols of the parent and this one behind them, and answers its number.
    pub fn add(&mut self, parent: u64, symbol: Symbol) -> Result<u64, AllocError>
        requires { parent < length (scope_lists self.old) }
        ensures added { OnOk result (scope_lists self.new ≡ scope_lists self.old
            ++ (scope_at self.old parent ++ symbol ∷ []) ∷ []) }
        ensures number { IfOk result (λ at. at ≡ length (scope_lists self.old)) }
        ensures kept { OnErr result (scope_lists self.new ≡ scope_lists self.old) }
        ensures unknowns { unknown_lists self.new ≡ unknown_lists self.old }
        ensures patterns { pattern_lists self.new ≡ pattern_lists self.old }
    {
        self.extend(parent, symbol, None)
    }

    /// Adds a scope with the symbols of the parent but for one that it hides, and this one behind them, and answers its number.
    pub fn add_hiding(
        &mut self,
        parent: u64,
        symbol: Symbol,
        hidden: Symbol,
    ) -> Result<u64, AllocError>
        requires { parent < length (scope_lists self.old) }
        ensures added { OnOk result (scope_lists self.new ≡ scope_lists self.old
            ++ (without hidden (scope_at self.old parent) ++ symbol ∷ []) ∷ []) }
        ensures number { IfOk result (λ at. at ≡ length (scope_lists self.old)) }
        ensures kept { OnErr result (scope_lists self.new ≡ scope_lists self.old) }
        ensures unknowns { unknown_lists self.new ≡ unknown_lists self.old }
        ensures patterns { pattern_lists self.new ≡ pattern_lists self.old }
    {
        self.extend(parent, symbol, Some(hidden))
    }

    // One scope more, and its number.
    fn extend(
        &mut self,
        parent: u64,
        symbol: Symbol,
        hidden: Option<Symbol>,
    ) -> Result<u64, AllocError>
        requires { parent < length (scope_lists self.old) }
        ensures added { OnOk result (scope_lists self.new ≡ scope_lists self.old
            ++ (left hidden (scope_at self.old parent) ++ symbol ∷ []) ∷ []) }
        ensures number { IfOk result (λ at. at ≡ length (scope_lists self.old)) }
        ensures kept { OnErr result (scope_lists self.new ≡ scope_lists self.old) }
        ensures unknowns { unknown_lists self.new ≡ unknown_lists self.old }
        ensures patterns { pattern_lists self.new ≡ pattern_lists self.old }
    {
        self.table.extend(parent, symbol, hidden)
    }

    /// Adds an unknown whose instances may speak of the value and of the symbols of this scope, and answers its number.
    pub fn add_unknown(&mut self, scope: u64) -> Result<u64, AllocError>
        requires { scope < length (scope_lists self.old) }
        ensures added { OnOk result (unknown_lists self.new ≡ unknown_lists self.old ++ scope_at self.old scope ∷ []) }
        ensures number { IfOk result (λ at. at ≡ length (unknown_lists self.old)) }
        ensures kept { OnErr result (unknown_lists self.new ≡ unknown_lists self.old) }
        ensures scopes { scope_lists self.new ≡ scope_lists self.old }
        ensures patterns { pattern_lists self.new ≡ pattern_lists self.old }
    {
        self.places.push(scope)
    }

    /// Adds a pattern, and answers its number. It has no unknowns of its own as long as it isn't used.
    pub fn add_pattern(&mut self, inner: Vec<Inner>) -> Result<u64, AllocError>
        requires { AreInner (length (scope_lists self.old)) inner.items }
        ensures added { OnOk result (pattern_lists self.new ≡ pattern_lists self.old
            ++ map (inner_view (scope_lists self.old)) inner.items ∷ []) }
        ensures number { IfOk result (λ at. at ≡ length (pattern_lists self.old)) }
        ensures kept { OnErr result (pattern_lists self.new ≡ pattern_lists self.old) }
        ensures scopes { scope_lists self.new ≡ scope_lists self.old }
        ensures unknowns { unknown_lists self.new ≡ unknown_lists self.old }
    {
        self.places.add_pattern(inner)
    }

    /// Adds an unknown for each of a pattern's, where this scope stands before the scopes of those that say so.
    pub fn add_copies(&mut self, pattern: u64, scope: u64) -> Result<(), AllocError>
        requires pattern { pattern < length (pattern_lists self.old) }
        requires scope { scope < length (scope_lists self.old) }
        ensures added { OnOk result (unknown_lists self.new ≡ unknown_lists self.old
            ++ map (inner_list (scope_at self.old scope)) (slice_index_or (pattern_lists self.old) pattern [])) }
        ensures kept { OnErr result (unknown_lists self.new ≡ unknown_lists self.old) }
        ensures scopes { scope_lists self.new ≡ scope_lists self.old }
        ensures patterns { pattern_lists self.new ≡ pattern_lists self.old }
    {
        self.places.add_copies(pattern, scope)
    }

    // Whether a symbol is at a place.
    fn has_at(&self, place: Place, symbol: Symbol) -> bool
        ensures { result ≡ is_in (place_list (scope_lists self.now) place) symbol }
    {
        match place {
            Place::Alone(scope) => self.table.has(scope, symbol),
            Place::Behind(scope, own) => {
                if self.table.has(scope, symbol) {
                    return true;
                }
                self.table.has(own, symbol)
            }
        }
    }

    /// Whether the instances of an unknown may speak of a symbol.
    pub fn has(&self, unknown: u64, symbol: Symbol) -> bool
        ensures { result ≡ is_in (scopes_view self.now unknown) symbol }
    {
        if is_same_symbol(Symbol::Value, symbol) {
            return true;
        }
        match self.places.get(unknown) {
            Some(place) => self.has_at(place, symbol),
            None => false,
        }
    }
}
