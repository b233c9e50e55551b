// Names in a row.
ghost use Rattle.std.specs.Prelude.{◌≡◌, [], ◌∷◌, ◌++◌, length, slice_get, option_copied, IsOkAnd, OnOk, OnErr};

use std::alloc::{AllocError, Global};
use std::marker::Model;

/// Names or binders in a row.
#[derive(Drop)]
pub struct Names<B> {
    items: Vec<B>,
}

impl<B> Model for Names<B> {
    ghost use Rattle.std.specs.Prelude.{List};

    ghost Value = { List B };

    ghost view = { λ n. n.items.items };
}

impl<B> Names<B> {
    pub fn new(alloc: Global) -> Result<Names<B>, AllocError>
        ensures { IsOkAnd result (λ names. names ≡ []) }
    {
        Ok(Names {
            items: Vec::new(alloc),
        })
    }

    pub fn len(&self) -> usize
        ensures { result ≡ length self.now }
    {
        self.items.len()
    }

    pub fn get(&self, at: usize) -> Option<&B>
        ensures { option_copied result ≡ slice_get self.now at }
    {
        self.items.get(at)
    }

    pub fn push(&mut self, item: B) -> Result<(), AllocError>
    where
        B: Drop,
        ensures ok { OnOk result (self.new ≡ self.old ++ item ∷ []) }
        ensures err { OnErr result (self.new ≡ self.old) }
    {
        self.items.push(item)?;
        Ok(())
    }
}
