// Programs and what they resolve to.
ghost use Rattle.std.specs.Prelude.{◌≡◌, ◌⊎◌, true, [], Some, Err, IfOk, IfErr};
ghost use Rattle.lq_text_tree.specs.Texts.{program_view};
ghost use Rattle.lq_text_scope.specs.Uses.{of_program};
ghost use Rattle.lq_text_walk.specs.Scoped.Whole.{scoped_view};
ghost use Rattle.lq_text_resolve.specs.Resolution.Parameters.{have_places};
ghost use Rattle.lq_text_resolve.specs.Resolution.Resolution.{Resolution, IsResolution, resolved, scoping_of};
ghost use Rattle.lq_text_resolve.specs.Resolution.Views.{answer_view, error_view};
ghost use Rattle.lq_text_resolve.specs.declared.resolution.program.ResolveError.TheVariants.{Memory};

use crate::binding::{Bound, bind_program};
use crate::resolution::laws::{bound_programs_are_scoped, one_resolution};
use lq_base_names::NameTable;
use lq_text_datatypes::datatypes_of;
use lq_text_scope::{Complaint, first_complaint, least_is_least};
use lq_text_tree::Program;
use lq_text_walk::scoped::Scoped;
use std::alloc::{AllocError, Global};
use thiserror::Error;

/// Why a program has no scoped one.
#[derive(Clone, Copy, Debug, PartialEq, Eq, Error)]
pub enum ResolveError {
    /// What is wrong with a name.
    #[error("a name is refused")]
    Complaint(Complaint),
    #[error("out of memory")]
    Memory,
}

impl From<AllocError> for ResolveError {
    ghost from_gives = { λ _ e. e ≡ Memory };

    fn from(_: AllocError) -> Self {
        ResolveError::Memory
    }
}

// The scoped program of one without complaints.
fn scoped_of(alloc: Global, program: &Program, names: &NameTable) -> Result<Scoped, AllocError>
    requires places { have_places (program_view program.now) ≡ true }
    requires fine { of_program names.now (program_view program.now) ≡ [] }
    ensures { IfOk result (λ s. scoped_view s ≡ scoping_of names.now (program_view program.now)) }
{
    bound_programs_are_scoped();
    let datatypes = datatypes_of(alloc, program.items())?;
    let Bound { items, sources } = bind_program(alloc, program, names)?;
    Ok(Scoped::new(items, datatypes, sources))
}

/// A program with its names bound, or the first thing that is wrong with its names.
///
/// Each use gets the binder of the nearest definition of its name, as the OCaml manual has it for the core language; where there is none,
/// and the name is a primitive's with all its arguments, that primitive is a node. Where several things are wrong, the first in the order
/// of the text is told, and of several at one place the one with the lowest code. Where a program has 2^32 nodes or more than 2^31
/// binders, it answers that there is no memory.
pub fn resolve(alloc: Global, program: &Program, names: &NameTable) -> Result<Scoped, ResolveError>
    // Its patterns stand where a text can have them, as those of every parsed program do.
    requires { have_places (program_view program.now) ≡ true }
    // Nothing is wrong with the names of a program that is resolved, and its names are bound.
    ensures resolved { IfOk result (λ s. IsResolution names.now (program_view program.now)
        (resolved (scoped_view s))) }
    // What is told is the least of what is wrong.
    ensures told { IfErr result (λ e. (e ≡ Memory) ⊎ ((due : Resolution) × (error_view e ≡ Some due)
        × IsResolution names.now (program_view program.now) due)) }
    // Only want of memory comes in place of what is due.
    ensures exact { (due : Resolution) → IsResolution names.now (program_view program.now) due
        → (result ≡ Err Memory) ⊎ (answer_view result ≡ Some due) }
{
    one_resolution();
    least_is_least();
    if let Some(complaint) = first_complaint(alloc, program, names)? {
        return Err(ResolveError::Complaint(complaint));
    }
    Ok(scoped_of(alloc, program, names)?)
}
