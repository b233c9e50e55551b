// Three texts with their names bound.
ghost use Rattle.std.specs.Prelude.{◌≤◌, ◌^◌, Ok, IfOk, IfErr, length};
ghost use Rattle.lq_text_lexer.specs.declared.limits.TheConstants.{TEXT_LIMIT};
ghost use Rattle.lq_text_front.specs.Texts.Told.{error_view};
ghost use Rattle.lq_text_front.specs.Bytes.Stages.{bytes_of, BindsTo, Bound};
ghost use Rattle.lq_text_front.specs.Bytes.Views.{IsBy, IsRefusalOf, IsView};

use crate::bytes::complaints::{program_refusal, sort_refusal};
use crate::bytes::reading::read;
use crate::bytes::{BoundTexts, Refusing};
use crate::texts::{ResolveError, resolve};
use crate::trees::parsed_programs_have_places;
use lq_base_names::NameTable;
use std::alloc::Global;

/// How texts with whose names something is wrong are refused.
fn no_names(alloc: Global, names: &NameTable, error: ResolveError) -> Refusing
    ensures { IsRefusalOf names.now (error_view error) result }
{
    let refused = match error {
        ResolveError::Program(complaint) => program_refusal(alloc, names, complaint),
        ResolveError::Measures(complaint) => sort_refusal(alloc, names, complaint),
        ResolveError::Qualifiers(complaint) => sort_refusal(alloc, names, complaint),
        ResolveError::Memory => return Refusing::Memory,
    };
    match refused {
        Ok(refused) => Refusing::Refused(refused),
        Err(_) => Refusing::Memory,
    }
}

/// Three texts with their names bound, or the first reason to refuse them: codes 1 to 5 of the program, of the measures and of the
/// qualifiers, and then codes 6 to 11.
pub fn bind(
    alloc: Global,
    program: &[u8],
    measures: &[u8],
    qualifiers: &[u8],
) -> Result<BoundTexts, Refusing>
    requires program { length program.now ≤ TEXT_LIMIT }
    requires measures { length measures.now ≤ TEXT_LIMIT }
    requires qualifiers { length qualifiers.now ≤ TEXT_LIMIT }
    ensures bound { IfOk result (λ t. (b : Bound)
        × BindsTo (bytes_of program.now measures.now qualifiers.now) (Ok b) × IsView t b) }
    ensures few { IfOk result (λ t. length t.names ≤ 2 ^ 31) }
    ensures refused { IfErr result (λ e. IsBy (BindsTo (bytes_of program.now measures.now qualifiers.now)) e) }
{
    parsed_programs_have_places();
    let trees = read(alloc, program, measures, qualifiers)?;
    match resolve(
        alloc,
        &trees.program,
        &trees.measures,
        &trees.qualifiers,
        &trees.names,
    ) {
        Ok(texts) => Ok(BoundTexts {
            names: trees.names,
            texts,
        }),
        Err(error) => Err(no_names(alloc, &trees.names, error)),
    }
}
