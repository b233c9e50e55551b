// Trees, patterns and arms in rows.
ghost use Rattle.std.specs.Prelude.{◌≡◌, [], ◌∷◌, ◌++◌, length, slice_get, option_copied, IsOkAnd, OnOk, OnErr};
ghost use Rattle.lq_text_tree.specs.PatternView.{pats_items};
ghost use Rattle.lq_text_tree.specs.TreeView.{exprs_items, arms_items};

use crate::expr::{Arm, Arms, Expr, Exprs};
use crate::pattern::{Pat, Pats};
use std::alloc::{AllocError, Global};

impl<B> Exprs<B> {
    pub fn new(alloc: Global) -> Result<Exprs<B>, AllocError>
        ensures { IsOkAnd result (λ es. exprs_items B es ≡ []) }
    {
        Ok(Exprs {
            items: Vec::new(alloc),
        })
    }

    pub fn len(&self) -> usize
        ensures { result ≡ length (exprs_items B self.now) }
    {
        self.items.len()
    }

    pub fn get(&self, at: usize) -> Option<&Expr<B>>
        ensures { option_copied result ≡ slice_get (exprs_items B self.now) at }
    {
        self.items.get(at)
    }

    pub fn push(&mut self, item: Expr<B>) -> Result<(), AllocError>
    where
        B: Drop,
        ensures ok { OnOk result (exprs_items B self.new ≡ exprs_items B self.old ++ item ∷ []) }
        ensures err { OnErr result (exprs_items B self.new ≡ exprs_items B self.old) }
    {
        self.items.push(item)?;
        Ok(())
    }
}

impl<B> Arms<B> {
    pub fn new(alloc: Global) -> Result<Arms<B>, AllocError>
        ensures { IsOkAnd result (λ arms. arms_items B arms ≡ []) }
    {
        Ok(Arms {
            items: Vec::new(alloc),
        })
    }

    pub fn len(&self) -> usize
        ensures { result ≡ length (arms_items B self.now) }
    {
        self.items.len()
    }

    pub fn get(&self, at: usize) -> Option<&Arm<B>>
        ensures { option_copied result ≡ slice_get (arms_items B self.now) at }
    {
        self.items.get(at)
    }

    pub fn push(&mut self, item: Arm<B>) -> Result<(), AllocError>
    where
        B: Drop,
        ensures ok { OnOk result (arms_items B self.new ≡ arms_items B self.old ++ item ∷ []) }
        ensures err { OnErr result (arms_items B self.new ≡ arms_items B self.old) }
    {
        self.items.push(item)?;
        Ok(())
    }
}

impl<B> Pats<B> {
    pub fn new(alloc: Global) -> Result<Pats<B>, AllocError>
        ensures { IsOkAnd result (λ ps. pats_items B ps ≡ []) }
    {
        Ok(Pats {
            items: Vec::new(alloc),
        })
    }

    pub fn len(&self) -> usize
        ensures { result ≡ length (pats_items B self.now) }
    {
        self.items.len()
    }

    pub fn get(&self, at: usize) -> Option<&Pat<B>>
        ensures { option_copied result ≡ slice_get (pats_items B self.now) at }
    {
        self.items.get(at)
    }

    pub fn push(&mut self, item: Pat<B>) -> Result<(), AllocError>
    where
        B: Drop,
        ensures ok { OnOk result (pats_items B self.new ≡ pats_items B self.old ++ item ∷ []) }
        ensures err { OnErr result (pats_items B self.new ≡ pats_items B self.old) }
    {
        self.items.push(item)?;
        Ok(())
    }
}
