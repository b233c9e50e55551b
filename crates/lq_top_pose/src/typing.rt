// Three texts with the program's types.
ghost use Rattle.std.specs.Prelude.{◌≤◌, ◌^◌, Ok, IfOk, IfErr, length};
ghost use Rattle.lq_text_front.specs.Bytes.Stages.{BindsTo, Bound, Bytes};
ghost use Rattle.lq_text_front.specs.Bytes.Views.{IsBy, IsOf, IsView};
ghost use Rattle.lq_top_pose.specs.Stages.{error_refusal, AreTyped, Typed};
ghost use Rattle.lq_top_pose.specs.Views.{IsPosable, IsTypedView};

use lq_base_names::NameTable;
use lq_generate_fresh::fresh::constructors_differ;
use lq_generate_reading::notes::{Noted, note, noted_are_known};
use lq_meaning_normalize::normalize::{NormalProgram, normal};
use lq_sound_readiness::normal_texts::typed_texts_have_rules;
use lq_sound_readiness::text_programs::noted_texts_are_ready;
use lq_sound_readiness::uniqueness::noted_have_annotations;
use lq_text_front::bytes::{BoundTexts, Refusing};
use lq_text_front::texts::ScopedTexts;
use lq_text_qualifiers::sorting::{ScopedMeasure, ScopedQualifier};
use lq_text_refusal::Refused;
use lq_types_infer::annotation::{TypeError, infer};
use lq_types_infer::instantiation::instantiate;
use std::alloc::Global;

/// A typed program with its normal form, measures and qualifiers, and the table of their names.
#[derive(Drop)]
pub struct TypedTexts {
    pub names: NameTable,
    pub noted: Noted,
    pub normal: NormalProgram,
    pub measures: Vec<ScopedMeasure>,
    pub qualifiers: Vec<ScopedQualifier>,
}

fn no_types(error: TypeError) -> Refusing
    ensures { IsOf (error_refusal error) result }
{
    match error {
        TypeError::IllTyped(place) => Refusing::Refused(Refused::At(12, place)),
        TypeError::WeakType(place) => Refusing::Refused(Refused::At(13, place)),
        TypeError::TypePast(place, count) => Refusing::Refused(Refused::Nodes(14, place, count)),
        TypeError::Memory => Refusing::Memory,
    }
}

/// Texts whose names are bound with the program's types, where it has some that are wanted, and its normal form.
pub(crate) fn typed(alloc: Global, bound: BoundTexts) -> Result<TypedTexts, Refusing>
    requires few { length bound.names ≤ 2 ^ 31 }
    ensures typed { IfOk result (λ m. (bytes : Bytes) (b : Bound) → BindsTo bytes (Ok b) → IsView bound b
        → (t : Typed) × AreTyped b (Ok t) × IsTypedView m t) }
    ensures posable { IfOk result (λ m. (bytes : Bytes) (b : Bound) → BindsTo bytes (Ok b) → IsView bound b
        → IsPosable m) }
    ensures refused { IfErr result (λ e. (bytes : Bytes) (b : Bound) → BindsTo bytes (Ok b) → IsView bound b
        → IsBy (AreTyped b) e) }
{
    typed_texts_have_rules();
    constructors_differ();
    noted_are_known();
    noted_texts_are_ready();
    noted_have_annotations();
    let BoundTexts { mut names, texts } = bound;
    let ScopedTexts {
        program,
        measures,
        qualifiers,
    } = texts;
    let annotated = match infer(alloc, program) {
        Ok(annotated) => annotated,
        Err(error) => return Err(no_types(error)),
    };
    let normal = normal(alloc, annotated.scoped())?;
    let value = names.intern("v")?;
    let program = instantiate(alloc, annotated)?;
    let noted = note(alloc, program, value)?;
    Ok(TypedTexts {
        names,
        noted,
        normal,
        measures,
        qualifiers,
    })
}
