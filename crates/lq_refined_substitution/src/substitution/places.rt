// Unknowns by their numbers, of which some are copies of patterns, and where the symbols of each stand.
ghost use Rattle.std.specs.Prelude.{◌≡◌, List, length, map};
ghost use Rattle.std.specs.declared.alloc.Global.{Global as Heap};
ghost use Rattle.std.specs.declared.vec.Vec.{Vec as Row};
ghost use Rattle.lq_refined_substitution.specs.Substitution.Places.{mixed, placed-prop, ArePlaced};
ghost use Rattle.lq_refined_substitution.specs.declared.substitution.places.Inner.{Inner as Inside};

use std::alloc::{AllocError, Global};

/// An unknown of a pattern: its scope, and whether the scope at which the pattern is used stands before that one.
#[derive(Clone, Copy, Debug)]
pub struct Inner {
    pub scope: u64,
    pub is_behind: bool,
}

// Where the symbols of an unknown stand.
#[derive(Clone, Copy, Debug)]
pub(crate) enum Place {
    // In a scope.
    Alone(u64),
    // In a scope, and in another one behind it.
    Behind(u64, u64),
}

impl Inner {
    ghost use Rattle.std.specs.Prelude.{◌≡◌};
    ghost use Rattle.lq_refined_substitution.specs.Substitution.Places.{inner_place};

    // The place of the unknown, where the pattern is used at this scope.
    fn at(&self, scope: u64) -> Place
        ensures { result ≡ inner_place scope self.now }
    {
        if self.is_behind {
            return Place::Behind(scope, self.scope);
        }
        Place::Alone(self.scope)
    }
}

// A copy of each unknown of a pattern: the number of the first one, how many of those given alone stand before it, the pattern, and the scope
// at which that is used.
#[derive(Clone, Copy, Debug)]
struct Copies {
    first: u64,
    before: u64,
    pattern: u64,
    scope: u64,
}

// Unknowns, and patterns, each by their numbers. An unknown given alone takes a number, and a copy takes an entry, however long its pattern.
#[derive(Drop)]
pub(crate) struct Places {
    alone: Vec<u64>,
    patterns: Vec<Vec<Inner>>,
    copies: Vec<Copies>,
    count: u64,
    ghost placed: { ArePlaced (map (λ (v : Row Inside Heap). v.items) patterns.items) (length alone.items) 0 0 copies.items } by { placed-prop (map (λ (v : Row Inside Heap). v.items) patterns.items) (length alone.items) 0 0 copies.items },
    ghost counted: { count ≡ length (mixed (map (λ (v : Row Inside Heap). v.items) patterns.items) alone.items 0 copies.items) },
}

impl Places {
    ghost use Rattle.std.specs.Prelude.{◌≡◌, ◌+◌, ◌<◌, ◌^◌, [], ◌∷◌, ◌++◌, length, map, option_map, slice_get, IfOk, OnOk, OnErr};
    ghost use Rattle.lq_refined_substitution.specs.Substitution.Placed.{patterns_of, places_of};
    ghost use Rattle.lq_refined_substitution.specs.Substitution.Places.{inner_place, pattern_at, place_from, IsLast};
    ghost use Rattle.lq_refined_substitution.specs.declared.substitution.places.Place.TheVariants.{Alone};

    // No unknowns, and no patterns.
    pub(crate) fn new(alloc: Global) -> Places
        ensures places { places_of result ≡ [] }
        ensures patterns { patterns_of result ≡ [] }
    {
        Places {
            alone: Vec::new(alloc),
            patterns: Vec::new(alloc),
            copies: Vec::new(alloc),
            count: 0,
        }
    }

    // How many unknowns there are.
    pub(crate) fn len(&self) -> u64
        ensures { result ≡ length (places_of self.now) }
    {
        self.count
    }

    // One unknown more, in this scope, and its number.
    pub(crate) fn push(&mut self, scope: u64) -> Result<u64, AllocError>
        ensures added { OnOk result (places_of self.new ≡ places_of self.old ++ Alone scope ∷ []) }
        ensures number { IfOk result (λ at. at ≡ length (places_of self.old)) }
        ensures kept { OnErr result (places_of self.new ≡ places_of self.old) }
        ensures patterns { patterns_of self.new ≡ patterns_of self.old }
    {
        let number = self.count;
        let Some(count) = number.checked_add(1) else {
            return Err(AllocError);
        };
        self.alone.push(scope)?;
        self.count = count;
        Ok(number)
    }

    // One pattern more, and its number.
    pub(crate) fn add_pattern(&mut self, inner: Vec<Inner>) -> Result<u64, AllocError>
        ensures added { OnOk result (patterns_of self.new ≡ patterns_of self.old ++ inner.items ∷ []) }
        ensures number { IfOk result (λ at. at ≡ length (patterns_of self.old)) }
        ensures kept { OnErr result (patterns_of self.new ≡ patterns_of self.old) }
        ensures places { places_of self.new ≡ places_of self.old }
    {
        let number = self.patterns.len() as u64;
        self.patterns.push(inner)?;
        Ok(number)
    }

    // A pattern; past the last one it has no unknowns.
    fn pattern(&self, at: u64) -> &[Inner]
        ensures { result.now ≡ pattern_at (patterns_of self.now) at }
    {
        match self.patterns.get(at as usize) {
            Some(inner) => inner.as_slice(),
            None => &[],
        }
    }

    // A copy of each unknown of a pattern, used at this scope.
    pub(crate) fn add_copies(&mut self, pattern: u64, scope: u64) -> Result<(), AllocError>
        requires { pattern < length (patterns_of self.old) }
        ensures added { OnOk result (places_of self.new ≡ places_of self.old
            ++ map (inner_place scope) (pattern_at (patterns_of self.old) pattern)) }
        ensures kept { OnErr result (places_of self.new ≡ places_of self.old) }
        ensures patterns { patterns_of self.new ≡ patterns_of self.old }
    {
        let first = self.count;
        let more = self.pattern(pattern).len() as u64;
        let Some(count) = first.checked_add(more) else {
            return Err(AllocError);
        };
        self.copies.push(Copies {
            first,
            before: self.alone.len() as u64,
            pattern,
            scope,
        })?;
        self.count = count;
        Ok(())
    }

    // The last copies whose first unknown has this number or a lower one.
    fn last_copies(&self, unknown: u64) -> Option<Copies>
        ensures { IsLast self.now.copies.items unknown result }
    {
        let copies = self.copies.as_slice();
        let mut low = 0;
        let mut high = copies.len();
        while low < high {
            let middle = low + (high - low) / 2;
            if copies[middle].first <= unknown {
                low = middle + 1;
            } else {
                high = middle;
            }
        }
        if low == 0 {
            return None;
        }
        Some(copies[low - 1])
    }

    // The place of an unknown given alone, by its number among those.
    fn alone_at(&self, at: u64) -> Option<Place>
        ensures { result ≡ option_map Alone (slice_get self.now.alone.items at) }
    {
        match self.alone.get(at as usize) {
            Some(scope) => Some(Place::Alone(*scope)),
            None => None,
        }
    }

    // The place of an unknown among copies and those given alone behind them, by its number from the first one on.
    fn place_from(&self, copies: Copies, at: u64) -> Option<Place>
        requires { copies.before + at < 2 ^ 64 }
        ensures { result ≡ place_from (patterns_of self.now) self.now.alone.items copies at }
    {
        let pattern = self.pattern(copies.pattern);
        let length = pattern.len() as u64;
        if at < length {
            return Some(pattern[at as usize].at(copies.scope));
        }
        self.alone_at(copies.before + (at - length))
    }

    // Where the symbols of an unknown stand; None of one that isn't there.
    pub(crate) fn get(&self, unknown: u64) -> Option<Place>
        ensures { result ≡ slice_get (places_of self.now) unknown }
    {
        match self.last_copies(unknown) {
            Some(copies) => self.place_from(copies, unknown - copies.first),
            None => self.alone_at(unknown),
        }
    }
}
