// Symbols that were met, to be found quickly where they come in order.
ghost use Rattle.lq_refined_substitution.specs.Substitution.Scopes.{AreBetween};

use crate::substitution::swaps::is_same_symbol;
use crate::substitution::tables::rank;
use lq_logic_predicates::Symbol;
use std::alloc::{AllocError, Global};

/// Symbols for which there is something already, with bounds of their ranks: a symbol outside of these is none of them.
#[derive(Drop)]
pub(crate) struct Seen {
    pub(crate) items: Vec<Symbol>,
    lowest: u64,
    highest: u64,
    ghost bounds: { AreBetween lowest highest items.items },
}

impl Seen {
    ghost use Rattle.std.specs.Prelude.{◌≡◌, [], ◌∷◌, ◌++◌, OnOk};
    ghost use Rattle.lq_refined_types.specs.Parts.Substitution.{is_in};

    pub(crate) fn new(alloc: Global) -> Seen
        ensures { result.items.items ≡ [] }
    {
        Seen {
            items: Vec::new(alloc),
            lowest: u64::MAX,
            highest: 0,
        }
    }

    // Whether a symbol is one of them.
    pub(crate) fn has(&self, symbol: Symbol) -> bool
        ensures { result ≡ is_in self.now.items.items symbol }
    {
        let own = rank(symbol);
        if own < self.lowest {
            return false;
        }
        if self.highest < own {
            return false;
        }
        self.items
            .iter()
            .any(|other| is_same_symbol(*other, symbol))
    }

    // One symbol more.
    pub(crate) fn add(&mut self, symbol: Symbol) -> Result<(), AllocError>
        ensures { OnOk result (self.new.items.items ≡ self.old.items.items ++ symbol ∷ []) }
    {
        let own = rank(symbol);
        self.items.push(symbol)?;
        self.lowest = self.lowest.min(own);
        self.highest = self.highest.max(own);
        Ok(())
    }
}
