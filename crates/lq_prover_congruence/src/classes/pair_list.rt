// Pairs of terms in a row.
ghost use Rattle.std.specs.Prelude.{◌≡◌, [], ◌∷◌, ◌++◌, length, slice_get, option_copied, IsOkAnd, OnOk, OnErr};

use crate::classes::steps::Pair;
use std::alloc::{AllocError, Global};
use std::marker::Model;

/// Pairs of terms in a row.
#[derive(Drop)]
pub struct Pairs {
    items: Vec<Pair>,
}

impl Model for Pairs {
    ghost use Rattle.std.specs.Prelude.{List};
    ghost use Rattle.lq_prover_congruence.specs.declared.classes.steps.Pair.{Pair};

    ghost Value = { List Pair };

    ghost view = { λ p. p.items.items };
}

impl Pairs {
    pub fn new(alloc: Global) -> Result<Pairs, AllocError>
        ensures { IsOkAnd result (λ pairs. pairs ≡ []) }
    {
        Ok(Pairs {
            items: Vec::new(alloc),
        })
    }

    pub fn len(&self) -> usize
        ensures { result ≡ length self.now }
    {
        self.items.len()
    }

    pub fn get(&self, at: usize) -> Option<&Pair>
        ensures { option_copied result ≡ slice_get self.now at }
    {
        self.items.get(at)
    }

    pub fn push(&mut self, item: Pair) -> Result<(), AllocError>
        ensures ok { OnOk result (self.new ≡ self.old ++ item ∷ []) }
        ensures err { OnErr result (self.new ≡ self.old) }
    {
        self.items.push(item)?;
        Ok(())
    }
}
