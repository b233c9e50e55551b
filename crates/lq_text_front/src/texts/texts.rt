// A program, measures and qualifiers, and what they resolve to.
ghost use Rattle.std.specs.Prelude.{◌≡◌, ◌⊎◌, true, [], Some, Err, IfOk, IfErr};
ghost use Rattle.lq_text_scope.specs.Complaints.{Complaint as Told};
ghost use Rattle.lq_text_scope.specs.Complaints.{least};
ghost use Rattle.lq_text_scope.specs.Uses.{of_program};
ghost use Rattle.lq_text_walk.specs.Scoped.Whole.{scoped_view};
ghost use Rattle.lq_text_resolve.specs.Resolution.Parameters.{have_places};
ghost use Rattle.lq_text_resolve.specs.Resolution.Resolution.{scoping_of};
ghost use Rattle.lq_text_tree.specs.Texts.{measures_view, program_view, quals_view};
ghost use Rattle.lq_text_front.specs.Texts.Resolution.{IsResolution, Resolution, in_program, resolved, sources};
ghost use Rattle.lq_text_front.specs.Texts.Told.{answer_view, code_of, error_view, place_of, texts_view};
ghost use Rattle.lq_text_front.specs.declared.texts.texts.ResolveError.TheVariants.{Memory};

use crate::texts::laws::one_resolution;
use lq_base_names::{NameTable, Place};
use lq_text_qualifiers::faults::{
    SortComplaint, first_measure_complaint, first_qualifier_complaint,
};
use lq_text_qualifiers::sorting::{ScopedMeasure, ScopedQualifier, bind_measures, bind_qualifiers};
use lq_text_resolve::resolution::ResolveError as ProgramError;
use lq_text_scope::Complaint;
use lq_text_tree::{Measures, Program, Quals};
use lq_text_walk::scoped::Scoped;
use std::alloc::{AllocError, Global};
use thiserror::Error;

/// A program, measures and qualifiers whose names are bound.
#[derive(Drop)]
pub struct ScopedTexts {
    pub program: Scoped,
    /// In the order of their text, which numbers them.
    pub measures: Vec<ScopedMeasure>,
    pub qualifiers: Vec<ScopedQualifier>,
}

/// Why the three texts have none with their names bound.
#[derive(Clone, Copy, Debug, PartialEq, Eq, Error)]
pub enum ResolveError {
    /// What is wrong with a name of the program.
    #[error("a name of the program is refused")]
    Program(Complaint),
    /// What is wrong with the measures.
    #[error("a measure is refused")]
    Measures(SortComplaint),
    /// What is wrong with the qualifiers.
    #[error("a qualifier is refused")]
    Qualifiers(SortComplaint),
    #[error("out of memory")]
    Memory,
}

impl From<AllocError> for ResolveError {
    ghost from_gives = { λ _ e. e ≡ Memory };

    fn from(_: AllocError) -> Self {
        ResolveError::Memory
    }
}

impl ResolveError {
    /// The code of the refusal, from 6 to 11; want of memory has none.
    pub fn code(&self) -> Option<u8>
        ensures { result ≡ code_of self.now }
    {
        match self {
            ResolveError::Program(complaint) => Some(complaint.cause.code()),
            ResolveError::Measures(complaint) | ResolveError::Qualifiers(complaint) => {
                Some(complaint.cause.code())
            }
            ResolveError::Memory => None,
        }
    }

    /// The place of what is refused, in its text.
    pub fn place(&self) -> Option<Place>
        ensures { result ≡ place_of self.now }
    {
        match self {
            ResolveError::Program(complaint) => Some(complaint.place),
            ResolveError::Measures(complaint) | ResolveError::Qualifiers(complaint) => {
                Some(complaint.place)
            }
            ResolveError::Memory => None,
        }
    }
}

// The program with its names bound, or what is told of it.
fn program_bound(
    alloc: Global,
    program: &Program,
    names: &NameTable,
) -> Result<Scoped, ResolveError>
    requires { have_places (program_view program.now) ≡ true }
    ensures bound { IfOk result (λ s. (of_program names.now (program_view program.now) ≡ [])
        × (scoped_view s ≡ scoping_of names.now (program_view program.now))) }
    ensures told { IfErr result (λ e. (e ≡ Memory) ⊎ ((c : Told) × (error_view e ≡ Some (in_program c))
        × (least (of_program names.now (program_view program.now)) ≡ Some c))) }
{
    match lq_text_resolve::resolution::resolve(alloc, program, names) {
        Ok(scoped) => Ok(scoped),
        Err(ProgramError::Complaint(complaint)) => Err(ResolveError::Program(complaint)),
        Err(ProgramError::Memory) => Err(ResolveError::Memory),
    }
}

/// A program, measures and qualifiers with their names bound, or the first thing that is wrong with them.
///
/// The program's complaints count before those of the measures, and these before those of the qualifiers. Of those of one text the
/// first in the order of the text is told, and of several at one place the one with the lowest code.
pub fn resolve(
    alloc: Global,
    program: &Program,
    measures: &Measures,
    quals: &Quals,
    names: &NameTable,
) -> Result<ScopedTexts, ResolveError>
    // The program's patterns stand where a text can have them, as those of every parsed program do.
    requires { have_places (program_view program.now) ≡ true }
    // Nothing is wrong with texts that are resolved, and their names are bound.
    ensures resolved { IfOk result (λ t. IsResolution (sources names.now (program_view program.now)
        (measures_view measures.now) (quals_view quals.now)) (resolved (texts_view t))) }
    // What is told is the least of what is wrong with the first text with which anything is.
    ensures told { IfErr result (λ e. (e ≡ Memory) ⊎ ((due : Resolution) × (error_view e ≡ Some due)
        × IsResolution (sources names.now (program_view program.now) (measures_view measures.now)
        (quals_view quals.now)) due)) }
    // Only want of memory comes in place of what is due.
    ensures exact { (due : Resolution) → IsResolution (sources names.now (program_view program.now)
        (measures_view measures.now) (quals_view quals.now)) due
        → (result ≡ Err Memory) ⊎ (answer_view result ≡ Some due) }
{
    one_resolution();
    let program = program_bound(alloc, program, names)?;
    let datatypes = program.datatypes();
    if let Some(complaint) = first_measure_complaint(alloc, measures, datatypes, names)? {
        return Err(ResolveError::Measures(complaint));
    }
    if let Some(complaint) = first_qualifier_complaint(alloc, quals, measures, datatypes, names)? {
        return Err(ResolveError::Qualifiers(complaint));
    }
    let bound = bind_measures(alloc, measures, datatypes)?;
    let qualifiers = bind_qualifiers(alloc, quals, measures, names)?;
    Ok(ScopedTexts {
        program,
        measures: bound,
        qualifiers,
    })
}
