// Reasons of merges in a row.
ghost use Rattle.std.specs.Prelude.{◌≡◌, [], ◌∷◌, ◌++◌, length, slice_get, option_copied, IsOkAnd, OnOk, OnErr};

use std::alloc::{AllocError, Global};
use std::marker::Model;

/// Reasons of merges in a row.
#[derive(Drop)]
pub struct Reasons {
    items: Vec<u64>,
}

impl Model for Reasons {
    ghost use Rattle.std.specs.Prelude.{List, ℕ};

    ghost Value = { List ℕ };

    ghost view = { λ r. r.items.items };
}

impl Reasons {
    pub fn new(alloc: Global) -> Result<Reasons, AllocError>
        ensures { IsOkAnd result (λ reasons. reasons ≡ []) }
    {
        Ok(Reasons {
            items: Vec::new(alloc),
        })
    }

    pub fn len(&self) -> usize
        ensures { result ≡ length self.now }
    {
        self.items.len()
    }

    pub fn get(&self, at: usize) -> Option<&u64>
        ensures { option_copied result ≡ slice_get self.now at }
    {
        self.items.get(at)
    }

    pub fn push(&mut self, item: u64) -> Result<(), AllocError>
        ensures ok { OnOk result (self.new ≡ self.old ++ item ∷ []) }
        ensures err { OnErr result (self.new ≡ self.old) }
    {
        self.items.push(item)?;
        Ok(())
    }

    // The reasons of a vector.
    pub(crate) fn of(items: Vec<u64>) -> Reasons
        ensures { result ≡ items.items }
    {
        Reasons { items }
    }
}
