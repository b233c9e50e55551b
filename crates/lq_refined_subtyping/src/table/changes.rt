// What is done to a refined type.
ghost use Rattle.std.specs.Prelude.{◌≡◌, [], List, IfOk, IfSome, IsTrue};
ghost use Rattle.lq_refined_types.specs.Parts.Part.{Scopes as ScopeLists};
ghost use Rattle.lq_refined_types.specs.Types.Operations.{twin, type_by};
ghost use Rattle.lq_refined_types.specs.Types.Refined.{Refined};
ghost use Rattle.lq_refined_subtyping.specs.Table.Changes.{changed, change_rows, matrix_changed, parts_changed};
ghost use Rattle.lq_refined_subtyping.specs.Table.Forms.{matrix_view};
ghost use Rattle.lq_refined_types.specs.Renumbering.Renumbered.{renumbered};
ghost use Rattle.lq_refined_substitution.specs.Substitution.Views.{parts_view, scopes_view, subst_view};

use crate::table::forms::Matrix;
use crate::table::renumbering::renumbered_parts;
use lq_refined_substitution::substitution::{Parts, Scopes, Subst, after};
use std::alloc::{AllocError, Global};

/// What is done to a type, inside it too.
#[derive(Debug, Drop)]
pub enum Change {
    /// Something is put for names.
    Put(Subst),
    /// Each function names its argument by the twin.
    Twin,
    /// The same, and then something is put for names.
    Twinned(Subst),
    /// Types, by their numbers in the table, are put for its variables.
    Instantiated(Vec<usize>),
    /// Each unknown has a number that is greater by this, in matrices too. A number past 64 bits counts as want of memory.
    Renumbered(u64),
}

impl Change {
    /// The same again.
    pub fn copy(&self, alloc: Global) -> Result<Change, AllocError>
        ensures same { IfOk result (λ made. (scopes : ScopeLists) (all : List Refined) (t : Refined)
            → changed scopes all made t ≡ changed scopes all self.now t) }
        ensures rows { IfOk result (λ made. change_rows made ≡ change_rows self.now) }
    {
        match self {
            Change::Put(by) => Ok(Change::Put(by.copy(alloc)?)),
            Change::Twin => Ok(Change::Twin),
            Change::Twinned(by) => Ok(Change::Twinned(by.copy(alloc)?)),
            Change::Instantiated(types) => Ok(Change::Instantiated(Vec::from_slice(alloc, types)?)),
            Change::Renumbered(by) => Ok(Change::Renumbered(*by)),
        }
    }

    // Whether each function names its argument by the twin then, which has no twin but itself.
    fn has_twins(&self) -> bool
        ensures { IsTrue result → (scopes : ScopeLists) (all : List Refined) (t : Refined)
            → twin scopes (changed scopes all self.now t) ≡ changed scopes all self.now t }
    {
        match self {
            Change::Twin | Change::Twinned(_) => true,
            Change::Put(_) | Change::Instantiated(_) | Change::Renumbered(_) => false,
        }
    }

    // Whether it leaves a type as it is to which the earlier one was done.
    pub(crate) fn adds_nothing(&self, earlier: &Change) -> bool
        ensures { IsTrue result → (scopes : ScopeLists) (all : List Refined) (t : Refined)
            → changed scopes all self.now (changed scopes all earlier.now t) ≡ changed scopes all earlier.now t }
    {
        match self {
            Change::Twin => earlier.has_twins(),
            Change::Put(_) | Change::Twinned(_) | Change::Instantiated(_) | Change::Renumbered(_) =>
                false,
        }
    }

    // An earlier one and then this one, as one; None where they stay apart.
    pub(crate) fn behind(
        &self,
        alloc: Global,
        earlier: &Change,
    ) -> Result<Option<Change>, AllocError>
        ensures same { IfOk result (λ found. IfSome found (λ made. (scopes : ScopeLists) (all : List Refined) (t : Refined)
            → changed scopes all made t ≡ changed scopes all self.now (changed scopes all earlier.now t))) }
        ensures rows { IfOk result (λ found. IfSome found (λ made. change_rows made ≡ [])) }
    {
        match self {
            Change::Put(by) => put_behind(alloc, by, earlier),
            Change::Renumbered(by) => Ok(renumbered_behind(*by, earlier)),
            Change::Twin | Change::Twinned(_) | Change::Instantiated(_) => Ok(None),
        }
    }

    // The parts at the top, with it done to them.
    pub(crate) fn parts(
        &self,
        alloc: Global,
        scopes: &Scopes,
        parts: &Parts,
    ) -> Result<Parts, AllocError>
        ensures { IfOk result (λ made. parts_view made
            ≡ parts_changed (scopes_view scopes.now) self.now (parts_view parts.now)) }
    {
        match self {
            Change::Put(by) | Change::Twinned(by) => parts.by(alloc, scopes, by),
            Change::Twin | Change::Instantiated(_) => parts.copy(alloc),
            Change::Renumbered(by) => renumbered_parts(alloc, *by, parts),
        }
    }

    // The matrix of a datatype, with it done to it.
    pub(crate) fn matrix(&self, alloc: Global, matrix: Matrix) -> Result<Matrix, AllocError>
        ensures { IfOk result (λ made. matrix_view made ≡ matrix_changed self.now (matrix_view matrix)) }
    {
        match self {
            Change::Renumbered(by) => matrix.renumbered(alloc, *by),
            Change::Put(_) | Change::Twin | Change::Twinned(_) | Change::Instantiated(_) => {
                Ok(matrix)
            }
        }
    }
}

// An earlier change, and then something that is put for names, as one; None where they stay apart.
fn put_behind(alloc: Global, by: &Subst, earlier: &Change) -> Result<Option<Change>, AllocError>
    ensures same { IfOk result (λ found. IfSome found (λ made. (scopes : ScopeLists) (all : List Refined) (t : Refined)
        → changed scopes all made t ≡ type_by scopes (subst_view by.now) (changed scopes all earlier.now t))) }
    ensures rows { IfOk result (λ found. IfSome found (λ made. change_rows made ≡ [])) }
{
    match earlier {
        Change::Put(first) => Ok(Some(Change::Put(after(alloc, by, first)?))),
        Change::Twin => Ok(Some(Change::Twinned(by.copy(alloc)?))),
        Change::Twinned(first) => Ok(Some(Change::Twinned(after(alloc, by, first)?))),
        Change::Instantiated(_) | Change::Renumbered(_) => Ok(None),
    }
}

// An earlier change, and then numbers that are greater by this, as one; None where they stay apart.
fn renumbered_behind(by: u64, earlier: &Change) -> Option<Change>
    ensures same { IfSome result (λ made. (scopes : ScopeLists) (all : List Refined) (t : Refined)
        → changed scopes all made t ≡ renumbered by (changed scopes all earlier.now t)) }
    ensures rows { IfSome result (λ made. change_rows made ≡ []) }
{
    match earlier {
        Change::Renumbered(first) => match by.checked_add(*first) {
            Some(both) => Some(Change::Renumbered(both)),
            None => None,
        },
        Change::Put(_) | Change::Twin | Change::Twinned(_) | Change::Instantiated(_) => None,
    }
}
