// Numbers of terms in a row.
ghost use Rattle.std.specs.Prelude.{◌≡◌, [], ◌∷◌, ◌++◌, length, slice_get, ◌⊎◌, option_copied, IfOk, IsOkAnd, OnOk, OnErr};

use std::alloc::{AllocError, Global};
use std::marker::Model;

/// Numbers of terms in a row.
#[derive(Drop)]
pub struct Ids {
    items: Vec<u64>,
}

impl Model for Ids {
    ghost use Rattle.std.specs.Prelude.{List, ℕ};

    ghost Value = { List ℕ };

    ghost view = { λ n. n.items.items };
}

impl Ids {
    pub fn new(alloc: Global) -> Result<Ids, AllocError>
        ensures { IsOkAnd result (λ ids. ids ≡ []) }
    {
        Ok(Ids {
            items: Vec::new(alloc),
        })
    }

    pub fn len(&self) -> usize
        ensures { result ≡ length self.now }
    {
        self.items.len()
    }

    pub fn get(&self, at: usize) -> Option<&u64>
        ensures { option_copied result ≡ slice_get self.now at }
    {
        self.items.get(at)
    }

    pub fn push(&mut self, item: u64) -> Result<(), AllocError>
        ensures ok { OnOk result (self.new ≡ self.old ++ item ∷ []) }
        ensures err { OnErr result (self.new ≡ self.old) }
    {
        self.items.push(item)?;
        Ok(())
    }

    /// The same numbers again.
    pub fn copy(&self, alloc: Global) -> Result<Ids, AllocError>
        ensures { IfOk result (λ ids. ids ≡ self.now) }
    {
        Ok(Ids {
            items: self.to_vec(alloc)?,
        })
    }

    // The numbers in a vector.
    pub(crate) fn to_vec(&self, alloc: Global) -> Result<Vec<u64>, AllocError>
        ensures { IfOk result (λ v. v.items ≡ self.now) }
    {
        self.items.iter().copied().collect(alloc)
    }

    // The numbers.
    pub(crate) fn as_slice(&self) -> &[u64]
        ensures { result.now ≡ self.now }
    {
        self.items.as_slice()
    }

    // Takes the last number off where it is this one.
    pub(crate) fn pop_if(&mut self, item: u64)
        ensures { (self.new ≡ self.old) ⊎ (self.old ≡ self.new ++ item ∷ []) }
    {
        if self.items.last() == Some(&item) {
            self.items.pop();
        }
    }
}
