// Parts of refinements.
ghost use Rattle.std.specs.Prelude.{◌≡◌, [], ◌∷◌, ◌++◌, length, slice_get, IfOk, OnOk, OnErr};
ghost use Rattle.std.specs.Option.{option_copied};
ghost use Rattle.lq_refined_types.specs.Parts.Part.{is_truth, part_by, parts_by};
ghost use Rattle.lq_refined_substitution.specs.Substitution.Extending.{HasFirst};
ghost use Rattle.lq_refined_substitution.specs.Substitution.Views.{part_view, part_items, parts_view, scopes_view, subst_view};

use crate::substitution::composing::after;
use crate::substitution::restricting::restricted;
use crate::substitution::scopes::Scopes;
use crate::substitution::substituting::substitute;
use crate::substitution::substs::Subst;
use lq_logic_predicates::Pred;
use std::alloc::{AllocError, Global};

/// A part of a refinement.
#[derive(Debug, Drop)]
pub enum Part {
    /// A predicate.
    Known(Pred),
    /// The instances of an unknown, with something put for their symbols.
    Unknown(u64, Subst),
}

impl Part {
    /// An equal part.
    pub fn copy(&self, alloc: Global) -> Result<Part, AllocError>
        ensures { IfOk result (λ made. part_view made ≡ part_view self.now) }
    {
        match self {
            Part::Known(pred) => Ok(Part::Known(pred.copy(alloc)?)),
            Part::Unknown(unknown, by) => Ok(Part::Unknown(*unknown, by.copy(alloc)?)),
        }
    }

    /// The part with something put for its symbols. An unknown keeps what counts for the names of its scope.
    pub fn by(&self, alloc: Global, scopes: &Scopes, by: &Subst) -> Result<Part, AllocError>
        ensures { IfOk result (λ made. part_view made
            ≡ part_by (scopes_view scopes.now) (subst_view by.now) (part_view self.now)) }
    {
        match self {
            Part::Known(pred) => Ok(Part::Known(substitute(alloc, pred, by)?)),
            Part::Unknown(unknown, inner) => {
                let both = after(alloc, by, inner)?;
                Ok(Part::Unknown(*unknown, restricted(alloc, scopes, *unknown, &both)?))
            }
        }
    }

    /// Whether it is written `true`.
    pub fn is_truth(&self) -> bool
        ensures { result ≡ is_truth (part_view self.now) }
    {
        match self {
            Part::Known(Pred::True) => true,
            Part::Known(_) | Part::Unknown(_, _) => false,
        }
    }
}

/// Parts in a row.
#[derive(Debug, Drop)]
pub struct Parts {
    pub(crate) items: Vec<Part>,
}

impl Parts {
    /// No parts.
    pub fn new(alloc: Global) -> Parts
        ensures { parts_view result ≡ [] }
    {
        Parts {
            items: Vec::new(alloc),
        }
    }

    /// One part.
    pub fn single(alloc: Global, part: Part) -> Result<Parts, AllocError>
        ensures { IfOk result (λ made. parts_view made ≡ part_view part ∷ []) }
    {
        let items = vec![in alloc; part]?;
        Ok(Parts { items })
    }

    /// How many parts there are.
    pub fn len(&self) -> usize
        ensures { result ≡ length (parts_view self.now) }
    {
        self.items.len()
    }

    /// The part at an index, and None past the last one.
    pub fn get(&self, at: usize) -> Option<&Part>
        ensures { option_copied result ≡ slice_get (part_items self.now) at }
    {
        self.items.get(at)
    }

    /// The parts in their order.
    pub fn as_slice(&self) -> &[Part]
        ensures { result.now ≡ part_items self.now }
    {
        self.items.as_slice()
    }

    /// Adds a part behind the others. Where memory is refused, they stay as they were.
    pub fn push(&mut self, part: Part) -> Result<(), AllocError>
        ensures ok { OnOk result (parts_view self.new ≡ parts_view self.old ++ part_view part ∷ []) }
        ensures err { OnErr result (parts_view self.new ≡ parts_view self.old) }
    {
        self.items.push(part)?;
        Ok(())
    }

    /// Adds equal parts behind the others. Where memory is refused, the first ones of them may stand there.
    pub fn extend(&mut self, alloc: Global, parts: &Parts) -> Result<(), AllocError>
        ensures ok { OnOk result (parts_view self.new ≡ parts_view self.old ++ parts_view parts.now) }
        ensures err { OnErr result (HasFirst (parts_view self.old) (parts_view self.new) (parts_view parts.now)) }
    {
        self.items.reserve_exact(parts.items.len())?;
        for part in &parts.items {
            self.items.push(part.copy(alloc)?)?;
        }
        Ok(())
    }

    /// Equal parts in the same order.
    pub fn copy(&self, alloc: Global) -> Result<Parts, AllocError>
        ensures { IfOk result (λ made. parts_view made ≡ parts_view self.now) }
    {
        let mut items = Vec::with_capacity(alloc, self.items.len())?;
        for part in &self.items {
            items.push(part.copy(alloc)?)?;
        }
        Ok(Parts { items })
    }

    /// The parts with something put for their symbols.
    pub fn by(&self, alloc: Global, scopes: &Scopes, by: &Subst) -> Result<Parts, AllocError>
        ensures { IfOk result (λ made. parts_view made
            ≡ parts_by (scopes_view scopes.now) (subst_view by.now) (parts_view self.now)) }
    {
        let mut items = Vec::with_capacity(alloc, self.items.len())?;
        for part in &self.items {
            items.push(part.by(alloc, scopes, by)?)?;
        }
        Ok(Parts { items })
    }
}
