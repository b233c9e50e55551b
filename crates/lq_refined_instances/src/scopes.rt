// Scopes by their parents.
ghost use Rattle.std.specs.Prelude.{map};
ghost use Rattle.lq_refined_instances.specs.Scopes.{AreBelow, AreCounted};
ghost use Rattle.lq_refined_instances.specs.Seen.{added_view};

use crate::listing::{is_single, listed};
use crate::scope::Visible;
use std::alloc::{AllocError, Global};

/// A scope: the number of its parent, the symbol that is visible besides those of the parent, behind them, and the symbol of the parent
/// that isn't visible any more.
#[derive(Clone, Copy, Debug, PartialEq, Eq)]
pub struct Addition {
    pub parent: u64,
    pub visible: Visible,
    pub hidden: Option<Visible>,
}

/// Scopes, numbered from 0: the first is empty, and each other one names an earlier one, one symbol more, and one that it hides, if any.
/// Nothing is copied.
#[derive(Drop)]
pub struct Scopes {
    pub(crate) additions: Vec<Addition>,
    ghost parents: { AreBelow (map added_view additions.items) },
    ghost counted: { AreCounted (map added_view additions.items) },
}

impl Scopes {
    ghost use Rattle.std.specs.Prelude.{◌≡◌, ◌<◌, [], ◌∷◌, ◌++◌, Some, true, length, map, slice_get};
    ghost use Rattle.std.specs.Prelude.{IfOk, OnOk, OnErr, IfSome, MatchOption};
    ghost use Rattle.lq_refined_instances.specs.Scopes.{IsCounted, is_once, scope_in, without};
    ghost use Rattle.lq_refined_instances.specs.Seen.{hidden_view, visible_view};
    ghost use Rattle.lq_refined_instances.specs.Views.{scopes_view};

    /// The empty scope alone.
    pub fn new(alloc: Global) -> Result<Scopes, AllocError>
        ensures { IfOk result (λ all. scopes_view all ≡ [] ∷ []) }
    {
        Ok(Scopes {
            additions: Vec::new(alloc),
        })
    }

    /// How many scopes there are.
    pub fn len(&self) -> u64
        ensures { result ≡ length (scopes_view self.now) }
    {
        self.additions.len() as u64 + 1
    }

    /// Adds a scope in which all of the parent is visible and this symbol behind it, and answers its number.
    pub fn add(&mut self, parent: u64, visible: Visible) -> Result<u64, AllocError>
        requires { parent < length (scopes_view self.old) }
        ensures added { OnOk result (scopes_view self.new ≡ scopes_view self.old
            ++ (scope_in (scopes_view self.old) parent ++ visible_view visible ∷ []) ∷ []) }
        ensures number { IfOk result (λ at. at ≡ length (scopes_view self.old)) }
        ensures kept { OnErr result (scopes_view self.new ≡ scopes_view self.old) }
    {
        self.extend(Addition {
            parent,
            visible,
            hidden: None,
        })
    }

    /// Adds a scope in which all of the parent is visible but one symbol, and this one behind it, and answers its number. The symbol that
    /// it hides is visible in the parent with the shape that is handed in, and nothing else there is that symbol (`is_once`).
    pub fn add_hiding(
        &mut self,
        parent: u64,
        visible: Visible,
        hidden: Visible,
    ) -> Result<u64, AllocError>
        requires parent { parent < length (scopes_view self.old) }
        requires once { is_once (visible_view hidden) (scope_in (scopes_view self.old) parent) ≡ true }
        ensures added { OnOk result (scopes_view self.new ≡ scopes_view self.old
            ++ (without (Some (visible_view hidden)) (scope_in (scopes_view self.old) parent)
            ++ visible_view visible ∷ []) ∷ []) }
        ensures number { IfOk result (λ at. at ≡ length (scopes_view self.old)) }
        ensures kept { OnErr result (scopes_view self.new ≡ scopes_view self.old) }
    {
        self.extend(Addition {
            parent,
            visible,
            hidden: Some(hidden),
        })
    }

    // One scope more, and its number.
    fn extend(&mut self, addition: Addition) -> Result<u64, AllocError>
        requires parent { addition.parent < length (scopes_view self.old) }
        requires counted { IsCounted (hidden_view addition.hidden)
            (scope_in (scopes_view self.old) addition.parent) }
        ensures added { OnOk result (scopes_view self.new ≡ scopes_view self.old
            ++ (without (hidden_view addition.hidden) (scope_in (scopes_view self.old) addition.parent)
            ++ visible_view addition.visible ∷ []) ∷ []) }
        ensures number { IfOk result (λ at. at ≡ length (scopes_view self.old)) }
        ensures kept { OnErr result (scopes_view self.new ≡ scopes_view self.old) }
    {
        let at = self.additions.len() as u64 + 1;
        self.additions.push(addition)?;
        Ok(at)
    }

    // What was added at an index of the table.
    fn addition(&self, at: usize) -> Option<Addition>
        ensures { result ≡ slice_get self.now.additions.items at }
    {
        match self.additions.get(at) {
            Some(addition) => Some(*addition),
            None => None,
        }
    }

    /// The last symbol of a scope, with the scope before it and what is hidden of that; None of an empty one, and of one that isn't there.
    pub fn last(&self, at: u64) -> Option<Addition>
        ensures visible { MatchOption result (scope_in (scopes_view self.now) at ≡ [])
            (λ a. scope_in (scopes_view self.now) at ≡ without (hidden_view a.hidden)
            (scope_in (scopes_view self.now) a.parent) ++ visible_view a.visible ∷ []) }
        ensures earlier { IfSome result (λ a. a.parent < at) }
    {
        if at == 0 {
            return None;
        }
        self.addition(at as usize - 1)
    }

    /// All symbols of a scope; there are none in one that isn't there.
    pub fn visible(&self, alloc: Global, at: u64) -> Result<Vec<Visible>, AllocError>
        ensures { IfOk result (λ found. map visible_view found.items
            ≡ scope_in (scopes_view self.now) at) }
    {
        let nothing = Vec::new(alloc);
        listed(alloc, self, at, None, 0, &nothing)
    }
    /// Whether a symbol is visible in a scope with its shape, and nothing else there is that symbol.
    pub fn is_once(&self, alloc: Global, at: u64, visible: Visible) -> Result<bool, AllocError>
        ensures { IfOk result (λ once. once
            ≡ is_once (visible_view visible) (scope_in (scopes_view self.now) at)) }
    {
        let items = self.visible(alloc, at)?;
        is_single(alloc, &items, visible)
    }
}
